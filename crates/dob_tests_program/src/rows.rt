// What the program answers to some of its words over files in memory, and into any writer of the standard library. `./test` asks the built program for the
// same and for all else.
use crate::lions;
use crate::program::words_of;
use crate::shelves::has;
use dob_cli::{Console, MemShelf, run_words};
use std::alloc::Global;
use std::process::Abort;
use std::sync::Wait;
use std::thread::Threads;

// Two lines that are typed.
const TYPED: &[u8] = b"..l/.../L../... - -\n.../.../..l/L.. - -\n";

// Words, with what is written, one after the other. The values were found apart from this program, and the numbers counted of them.
const ROWS: [(&str, &str); 8] = [
    ("value|..l/.../L../... - -", "win 3\n"),
    (
        "build|--set|000|--nodes|3|--out|built.db",
        "classes 54\nwin 38\nloss 12\ndraw 4\n",
    ),
    ("check|--db|built.db", "consistent\n"),
    ("probe|--each|--db|built.db", "win 3\nloss 2\n"),
    ("migrate|--db|built.db|--out|built.db", "classes 54\n"),
    (
        "certify|--db|built.db|--out|one.cert|..l/.../L../... - -",
        "..l/.../L../... - - win within 3\nlost 1\nheld 0\n",
    ),
    (
        "verify|--cert|one.cert",
        "..l/.../L../... - - win within 3\n",
    ),
    (
        "reply|--cert|one.cert|..l/.../L../... - -",
        "La2-a3 win within 3\n",
    ),
];

// The program answers the words, which have bars between them, with that text.
fn answers(
    rt: &(impl Abort + Threads + Wait + Sync + Console),
    alloc: Global,
    shelf: &mut MemShelf,
    given: &str,
    text: &str,
) {
    let words = words_of(rt, alloc, given);
    let mut out = Vec::new(alloc);
    let mut err = Vec::new(alloc);
    let status = run_words(rt, alloc, &words, shelf, &mut out, &mut err);
    assert!(rt;
        status == 0 && err.is_empty() && out.as_slice() == text.as_bytes(),
        "{given}"
    );
}

#[test]
fn rows_of_the_program(rt: HostRuntime) {
    let mut shelf = MemShelf::new(rt.alloc());
    let mut input = Vec::new(rt.alloc());
    assert!(rt; input.extend_from_slice(TYPED).is_ok());
    shelf.set_input(input);
    for (given, text) in &ROWS {
        answers(&rt, rt.alloc(), &mut shelf, *given, *text);
    }
    assert!(rt; has(&mut shelf, "built.db", lions::FILE));
}
