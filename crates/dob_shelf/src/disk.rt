// The files that the system has, each written beside its name and put there when it is whole, and the standard input that it gives.
ghost use Rattle.std.specs.Prelude.{◌≡◌, ◌==◌, None, OnOk, drop, false, string_bytes};
ghost use Rattle.std.specs.List.{list_any};

use crate::line_reader::LineReader;
use crate::said::{Device, ErrorRecorder, LastError};
use crate::shelf::{Shelf, ShelfFault, is_failed};
use dob_device::{Sink, Source, Std};
use std::alloc::{AllocError, Global};
use std::fs::{self, File, OpenFile, OpenOptions, Permissions, TryLockError};
use std::io::{self, ErrorKind, Read, Write};
use std::os::unix::fs::{MetadataExt, OpenOptionsExt, PermissionsExt};
use std::rt::Files;
use std::snapshot::Snapshot;

/// The files that the system has, and a reader as standard input; contracts know nothing of the files' contents.
///
/// A file is written under its name with `.part` behind it, and takes its name once the system was made to put its bytes on the
/// disk; then the folder is put there too. So the file of that name is as it was until then, whatever happens, and whole from then
/// on; where only the folder fails, it is whole, and the shelf says that it failed. It has the mode of the file that it replaces.
///
/// The part is claimed when the file is made: another run is refused it until this one ends. One that a run left behind is taken away
/// by the next one. What is no regular file (a pipe, a device, a link) is written where it is, and what a link leads to is put on the
/// disk then; it has the bytes that it had until the first ones are written.
///
/// What the system says of a failure is left in its note, and the shelf keeps the name of the last file that it was asked for.
#[derive(Drop)]
pub struct DiskShelf<'a, R, I> {
    rt: &'a R,
    alloc: Global,
    input: LineReader<Std<ErrorRecorder<'a, I>>>,
    note: &'a LastError,
    name: String,
    made: Snapshot<String>,
    has_failed: bool,
}

// How a file is written: beside its name, by the mode of the file whose place it takes if there is one, or where it is.
#[derive(Clone, Copy)]
enum Way {
    Beside(Option<u32>),
    InPlace,
}

/// An open file that one run alone writes.
pub trait Claim {
    /// Claims it until it is closed, and fails where another run has. Where the file system knows no claims nothing is known of others.
    fn claim(&self) -> io::Result<()>;
}

impl Claim for File {
    fn claim(&self) -> io::Result<()> {
        match self.try_lock() {
            Err(TryLockError::WouldBlock) => Err(taken()),
            Ok(()) | Err(TryLockError::Error(_)) => Ok(()),
        }
    }
}

// What is said of a part that is another run's.
fn taken() -> io::Error {
    io::Error::new(ErrorKind::ResourceBusy, "another run is writing it")
}

/// A file that is being written; its name until it is kept, where that is another one; and whether what stood there before may still
/// be there.
#[derive(Drop)]
pub struct DiskFile<F> {
    file: F,
    part: Option<String>,
    has_old: bool,
}

impl<F: OpenFile> DiskFile<ErrorRecorder<'_, F>> {
    // Takes away what stood there before.
    fn clear(&mut self) -> io::Result<()> {
        if self.has_old {
            self.file.clear()?;
            self.has_old = false;
        }
        Ok(())
    }
}

impl<F: Write + OpenFile> Write for DiskFile<ErrorRecorder<'_, F>> {
    fn write(&mut self, bytes: &[u8]) -> io::Result<usize> {
        self.clear()?;
        self.file.write(bytes)
    }

    fn flush(&mut self) -> io::Result<()> {
        self.file.flush()
    }
}

impl<'a, R, I> DiskShelf<'a, R, I> {
    /// The files of the system and that standard input; no call has failed. What they say is left in the note.
    pub fn new(rt: &'a R, alloc: Global, input: I, note: &'a LastError) -> DiskShelf<'a, R, I>
        ensures { result.has_failed ≡ false }
    {
        DiskShelf {
            rt,
            alloc,
            input: LineReader::new(
                alloc,
                Std::new(ErrorRecorder::new(input, Device::Input, note)),
            ),
            note,
            name: String::new(alloc),
            made: Snapshot::of(&String::new(alloc)),
            has_failed: false,
        }
    }
}

impl<'a, R: Files, I> DiskShelf<'a, R, I>
where
    R::File: Claim,
{
    fn open(&mut self, name: &str) -> Result<ErrorRecorder<'a, R::File>, ShelfFault>
        ensures failed { self.new.has_failed ≡ self.old.has_failed }
        ensures made { self.new.made ≡ self.old.made }
    {
        self.name = name.to_string(self.alloc)?;
        let opened = fs::open(self.rt, name);
        self.note.record_error(Device::File, &opened);
        Ok(ErrorRecorder::new(opened?, Device::File, self.note))
    }

    // How a file of that name is written.
    fn way_to(&self, name: &str) -> io::Result<Way> {
        match fs::symlink_metadata(self.rt, name) {
            Ok(found) if found.is_file() => Ok(Way::Beside(Some(found.mode()))),
            Ok(_) => Ok(Way::InPlace),
            Err(error) if error.kind() == ErrorKind::NotFound => Ok(Way::Beside(None)),
            Err(error) => Err(error),
        }
    }

    // Claims the part that an earlier run left, if there is one. That run may still be writing it: then it fails.
    fn claim_left(&self, part: &str) -> io::Result<Option<R::File>> {
        match fs::symlink_metadata(self.rt, part) {
            Ok(found) if found.is_file() => {}
            _ => return Ok(None),
        }
        let left = fs::open(self.rt, part)?;
        self.claim_own(&left, part)?;
        Ok(Some(left))
    }

    // Claims the file, which the part's name has to lead to.
    fn claim_own(&self, file: &R::File, part: &str) -> io::Result<()> {
        file.claim()?;
        if self.is_own(file, part)? {
            Ok(())
        } else {
            Err(taken())
        }
    }

    // A part of that mode, or of the usual one, where there is none.
    fn create_part(&self, part: &str, mode: Option<u32>) -> io::Result<R::File> {
        let mut how = OpenOptions::new();
        how.read(true).write(true).create_new(true);
        if let Some(mode) = mode {
            how.mode(mode & 0o777);
        }
        how.open(self.rt, part)
    }

    // The claimed file of a part that is new, where a part of an earlier run may be left; it has that mode, and never a wider one.
    fn begin(&self, part: &str, mode: Option<u32>) -> io::Result<R::File> {
        // What was left stays claimed until the new one is, so that no other run takes that for one that was left.
        let _left = self.claim_left(part)?;
        let _ = fs::remove_file(self.rt, part);
        let file = self.create_part(part, mode)?;
        self.claim_own(&file, part)?;
        let Some(mode) = mode else {
            return Ok(file);
        };
        match file.set_permissions(Permissions::from_mode(mode & 0o7777)) {
            Ok(()) => Ok(file),
            Err(error) => {
                let _ = fs::remove_file(self.rt, part);
                Err(error)
            }
        }
    }

    // What stands at that name, no regular file, opened for writing.
    fn open_in_place(&self, name: &str) -> io::Result<R::File> {
        let mut how = OpenOptions::new();
        how.write(true).create(true);
        how.open(self.rt, name)
    }

    // A new file for the bytes of that name.
    fn create(&mut self, name: &str) -> Result<DiskFile<ErrorRecorder<'a, R::File>>, ShelfFault>
        ensures failed { self.new.has_failed ≡ self.old.has_failed }
        ensures made { OnOk result (string_bytes self.new.made.value ≡ name.now) }
    {
        self.name = name.to_string(self.alloc)?;
        self.made = Snapshot::of(&self.name);
        let way = self.way_to(name);
        self.note.record_error(Device::File, &way);
        let (made, part) = match way? {
            Way::InPlace => (self.open_in_place(name), None),
            Way::Beside(mode) => {
                let part = format!(in self.alloc; "{name}.part")?;
                (self.begin(part.as_str(), mode), Some(part))
            }
        };
        self.note.record_error(Device::File, &made);
        let file = ErrorRecorder::new(made?, Device::File, self.note);
        let has_old = part.is_none();
        Ok(DiskFile {
            file,
            part,
            has_old,
        })
    }

    // Whether the part's name still has that file, and no other run's.
    fn is_own(&self, file: &R::File, part: &str) -> io::Result<bool> {
        let made = file.metadata()?;
        let found = fs::symlink_metadata(self.rt, part)?;
        Ok(found.dev() == made.dev() && found.ino() == made.ino())
    }

    // Puts the bytes on the disk, the part under the name, and then the name on the disk.
    fn put_in_place(&self, file: &R::File, part: &str, name: &str) -> io::Result<()> {
        file.sync_all()?;
        if !self.is_own(file, part)? {
            return Err(taken());
        }
        fs::rename(self.rt, part, name)?;
        fs::open(self.rt, folder_of(name))?.sync_all()
    }

    // Puts the bytes of a file that has its name on the disk; a pipe and a device have none there.
    fn put_down(&self, file: &R::File) -> io::Result<()> {
        if file.metadata()?.is_file() {
            file.sync_all()
        } else {
            Ok(())
        }
    }

    // Keeps the file under the name. One that isn't kept takes its part along.
    fn keep_file(
        &self,
        name: &str,
        mut kept: DiskFile<ErrorRecorder<'a, R::File>>,
    ) -> io::Result<()> {
        kept.clear()?;
        let DiskFile { file, part, .. } = kept;
        let Some(part) = part else {
            return self.put_down(file.inner());
        };
        let done = self.put_in_place(file.inner(), part.as_str(), name);
        if done.is_err() {
            self.take_away(file.inner(), part.as_str());
        }
        done
    }

    // Where the name leads: a device of the system, and a number on it. `None` where nothing is there.
    fn place_of(&self, name: &str) -> Option<(u64, u64)> {
        match fs::metadata(self.rt, name) {
            Ok(found) => Some((found.dev(), found.ino())),
            Err(_) => None,
        }
    }

    // Whether both names lead to one place.
    fn is_one_place(&self, name: &str, other: &str) -> bool {
        match (self.place_of(name), self.place_of(other)) {
            (Some(place), Some(another)) => place == another,
            _ => false,
        }
    }

    // Takes the part away, where it is still that file's.
    fn take_away(&self, file: &R::File, part: &str) {
        if let Ok(true) = self.is_own(file, part) {
            let _ = fs::remove_file(self.rt, part);
        }
    }
}

// The folder of the name: what stands before its last slash, or the one where the program runs.
fn folder_of(name: &str) -> &str {
    match name.rsplit_once('/') {
        Some(("", _)) => "/",
        Some((folder, _)) => folder,
        None => ".",
    }
}

impl<'a, R: Files, I: Read> Shelf for DiskShelf<'a, R, I>
where
    R::File: Claim,
{
    type Src = Std<ErrorRecorder<'a, R::File>>;

    type Dst = Std<DiskFile<ErrorRecorder<'a, R::File>>>;

    ghost state = { λ shelf. record {
      has = λ _ _. ⊥;
      tells = false;
      has_failed = shelf.has_failed;
      made = string_bytes shelf.made.value;
      input = None;
      has_line = list_any (λ b. b == 10) (drop shelf.input.given shelf.input.read.items);
    } };

    fn find(&mut self, name: &str) -> Result<Std<ErrorRecorder<'a, R::File>>, ShelfFault> {
        let found = self.open(name);
        self.has_failed |= is_failed(&found);
        Ok(Std::new(found?))
    }

    fn close(&mut self, source: Std<ErrorRecorder<'a, R::File>>) {
        self.has_failed |= Source::failed(&source);
    }

    fn make(
        &mut self,
        name: &str,
    ) -> Result<Std<DiskFile<ErrorRecorder<'a, R::File>>>, ShelfFault> {
        let made = self.create(name);
        self.has_failed |= is_failed(&made);
        Ok(Std::new(made?))
    }

    fn keep(
        &mut self,
        name: &str,
        sink: Std<DiskFile<ErrorRecorder<'a, R::File>>>,
    ) -> Result<(), ShelfFault> {
        self.has_failed |= Sink::failed(&sink);
        let kept = self.keep_file(name, sink.into_inner());
        self.note.record_error(Device::File, &kept);
        match kept {
            Ok(()) => Ok(()),
            Err(_) => {
                self.has_failed = true;
                Err(ShelfFault::Failed)
            }
        }
    }

    fn discard(&mut self, _name: &str, sink: Std<DiskFile<ErrorRecorder<'a, R::File>>>) {
        self.has_failed |= Sink::failed(&sink);
        let DiskFile { file, part, .. } = sink.into_inner();
        if let Some(part) = part {
            self.take_away(file.inner(), part.as_str());
        }
    }

    fn next_line(&mut self, line: &mut Vec<u8>) -> Result<bool, ShelfFault> {
        let found = self.input.next_line(line);
        self.has_failed |= is_failed(&found);
        found
    }

    fn has_line(&self) -> bool {
        self.input.has_line()
    }

    fn is_same_file(&self, name: &str, other: &str) -> bool {
        name == other || self.is_one_place(name, other)
    }

    fn is_stream(&self, name: &str) -> bool {
        // What goes to /dev/null is lost anyhow.
        !self.is_one_place(name, "/dev/null")
            && (self.is_one_place(name, "/dev/stdin")
                || self.is_one_place(name, "/dev/stdout")
                || self.is_one_place(name, "/dev/stderr"))
    }

    fn said(&self, alloc: Global) -> Result<Option<String>, AllocError> {
        self.note.text(alloc, self.name.as_str())
    }
}
