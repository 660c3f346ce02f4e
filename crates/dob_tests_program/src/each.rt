// When `--each` answers an input that comes in pieces, by the file of lions alone, whose values were found apart from this program.
use crate::lions;
use crate::listed::{Listed, Log};
use crate::program::{Told, run_on};
use crate::shelves::{put, removes};
use crate::typed::Typed;
use dob_cli::{Claim, Console, DiskShelf, LastError};
use std::process::Abort;
use std::rt::Files;
use std::sync::Wait;
use std::thread::Threads;

const FILE: &str = "lions_asked_by_a_test.db";

// What the program answers by the file on a disk to an input in pieces of so many bytes.
fn told_of_pieces<R: Abort + AllocGlobal + Files + Threads + Wait + Sync + Console>(
    rt: &R,
    left: &'static [u8],
    longest: usize,
) -> Told
where
    R::File: Claim,
{
    let note = LastError::new();
    let typed = Typed { left, longest };
    let mut shelf = DiskShelf::new(rt, rt.alloc(), typed, &note);
    assert!(rt; put(&mut shelf, FILE, lions::FILE));
    let words = ["probe", "--db", FILE, "--each"];
    let told = run_on(rt, rt.alloc(), &mut shelf, &words);
    removes(rt, FILE);
    told
}

const BOTH: &[u8] = b"..l/.../L../... - -\n.../.../..l/L.. - -\n";

// The greatest length of the pieces in which both lines come, and after which bytes of standard output that was flushed: an answer is told before a line
// is waited for, and lines that came together are answered together. Of pieces of 30 bytes the second line begins in the first.
const PIECES: [(usize, &[usize]); 4] = [(7, &[6, 13]), (20, &[6, 13]), (30, &[6, 13]), (50, &[13])];

#[test]
fn answers_before_the_next_line(rt: HostRuntime) {
    for (longest, flushes) in &PIECES {
        let told = told_of_pieces(&rt, BOTH, *longest);
        assert!(rt; told.is(0, b"win 3\nloss 2\n", b"") && told.out.flushes() == *flushes);
    }
}

// Where the record of the second line's class stands.
const LOST_IN_2: u64 = 29;

// Two lines that come together, by a file whose second record that is asked can't be read: what ends all stands behind the answer to the line before.
#[test]
fn answers_before_a_fault(rt: HostRuntime) {
    let note = LastError::new();
    let typed = Typed {
        left: BOTH,
        longest: 50,
    };
    let mut log = Log::new(rt.alloc(), "");
    log.unread = Some(LOST_IN_2);
    let files = Listed { rt: &rt, log: &log };
    let mut shelf = DiskShelf::new(&files, rt.alloc(), typed, &note);
    assert!(rt; put(&mut shelf, FILE, lions::FILE));
    let words = ["look", "--db", FILE, "--each"];
    let told = run_on(&rt, rt.alloc(), &mut shelf, &words);
    removes(&rt, FILE);
    assert!(rt; told.is(3, b"win 3\n", b"dobutsu: E24 Io\n"));
}
