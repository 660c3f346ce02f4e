// Files that are put on a shelf and asked back.
ghost use Rattle.std.specs.Prelude.{◌≡◌};

use dob_cli::Shelf;
use dob_dbfile::{Sink, put_all, read_full};
use std::fs;
use std::process::Abort;
use std::rt::Files;

/// Puts the bytes under the name, and answers whether that was done.
pub(crate) fn put<S: Shelf>(shelf: &mut S, name: &str, bytes: &[u8]) -> bool {
    let Ok(mut sink) = shelf.make(name) else {
        return false;
    };
    let is_whole = put_all(&mut sink, bytes).is_ok() && !sink.failed();
    shelf.keep(name, sink).is_ok() && is_whole
}

/// Whether the shelf has exactly these bytes under the name, at most 255.
pub(crate) fn has<S: Shelf>(shelf: &mut S, name: &str, bytes: &[u8]) -> bool
    ensures { (S.state shelf.new).made ≡ (S.state shelf.old).made }
{
    let mut room = [0; 256];
    let Ok(mut source) = shelf.find(name) else {
        return false;
    };
    let read = read_full(&mut source, &mut room);
    shelf.close(source);
    match read {
        Ok(count) => &room[..count] == bytes,
        Err(_failed) => false,
    }
}

/// Removes the file of that name from the disk.
pub(crate) fn removes(rt: &(impl Abort + Files), name: &str) {
    assert!(rt; fs::remove_file(rt, name).is_ok());
}
