// How a test runs the program.
use dob_cli::{Console, Shelf, run_over};
use dob_dbfile::MemSink;
use std::alloc::Global;
use std::process::Abort;
use std::sync::Wait;
use std::thread::Threads;

/// What the program did.
#[derive(Drop)]
pub(crate) struct Told {
    pub(crate) status: u8,
    pub(crate) out: MemSink,
    pub(crate) err: MemSink,
}

impl Told {
    /// Whether the program ended with that status and wrote that.
    pub(crate) fn is(&self, status: u8, out: &[u8], err: &[u8]) -> bool {
        self.status == status && self.out.bytes() == out && self.err.bytes() == err
    }
}

/// What the program does over the shelf.
pub(crate) fn run_on<S: Shelf>(
    rt: &(impl Threads + Wait + Sync + Console),
    alloc: Global,
    shelf: &mut S,
    words: &[&str],
) -> Told {
    let mut out = MemSink::new(alloc);
    let mut err = MemSink::new(alloc);
    let status = run_over(rt, alloc, words, shelf, &mut out, &mut err);
    Told { status, out, err }
}

/// Words that have bars between them.
pub(crate) fn words_of<'a>(rt: &impl Abort, alloc: Global, given: &'a str) -> Vec<&'a str> {
    let mut words = Vec::new(alloc);
    for word in given.split('|') {
        words.push(word).expect(rt, "memory");
    }
    words
}
