// The lines that say how far some work is, by a clock that stands until it is set, and from words on by one that moves at each look. The numbers were worked
// out by hand.
use crate::lions;
use crate::program::{run_on, words_of};
use crate::shelves::put;
use dob_check::{Watch, check_watched};
use dob_cli::{Console, MemShelf, Progress};
use dob_dbfile::{HeldSource, read_table};
use std::fmt::Display;
use std::io;
use std::process::Abort;
use std::rt::Clock;
use std::sync::atomic::{AtomicU64, Ordering};
use std::sync::{Mutex, Wait};
use std::thread::Threads;
use std::time::Duration;

// A console whose clock moves on by a number of seconds at each look, so that the smallest work has a line to print whenever it is reported, by whichever
// thread; and that keeps what comes on its standard error.
#[derive(Drop)]
struct Paper<'a, R> {
    rt: &'a R,
    is_terminal: bool,
    step: u64,
    seconds: AtomicU64,
    text: Mutex<String>,
}

impl<'a, R: Wait + AllocGlobal> Paper<'a, R> {
    fn new(rt: &'a R, is_terminal: bool, step: u64) -> Paper<'a, R> {
        Paper {
            rt,
            is_terminal,
            step,
            seconds: AtomicU64::new(100),
            text: Mutex::new(String::new(rt.alloc())),
        }
    }

    // Whether that was written, and nothing else.
    fn says(&self, text: &str) -> bool {
        self.text.lock(self.rt).as_str() == text
    }

    // Whether what was written begins and ends so: nothing where it begins with nothing.
    fn says_within(&self, front: &str, back: &str) -> bool {
        let text = self.text.lock(self.rt);
        if front.is_empty() {
            return text.is_empty();
        }
        text.starts_with(front) && text.ends_with(back)
    }
}

impl<R: Threads> Threads for Paper<'_, R> {}

impl<R: Wait> Wait for Paper<'_, R> {}

impl<R> Clock for Paper<'_, R> {
    fn monotonic(&self) -> io::Result<Duration> {
        Ok(Duration::from_secs(self.seconds.fetch_add(self.step, Ordering::SeqCst)))
    }

    fn since_1970(&self) -> io::Result<Duration> {
        self.monotonic()
    }
}

impl<R: Wait> Eprint for Paper<'_, R> {
    fn eprint<D: Display + Drop>(&self, value: D) -> io::Result<()> {
        let mut text = self.text.lock(self.rt);
        let _ = write!(text, "{value}");
        Ok(())
    }

    fn eprintln<D: Display + Drop>(&self, value: D) -> io::Result<()> {
        self.eprint(value)?;
        self.eprint('\n')
    }
}

impl<R: Wait> Console for Paper<'_, R> {
    fn is_terminal(&self) -> bool {
        self.is_terminal
    }
}

// After so many seconds so many classes of 100 are added, and that was written.
const LINES: [(u64, u64, &str); 5] = [
    (0, 0, ""),
    (1, 0, "1 s, 0 %\n"),
    (1, 30, "1 s, 0 %\n"),
    (12, 4, "1 s, 0 %\n12 s, 34 %, 23 s left\n"),
    (
        20,
        100,
        "1 s, 0 %\n12 s, 34 %, 23 s left\n20 s, 99 %, 0 s left\n",
    ),
];

#[test]
fn a_line_a_second(rt: HostRuntime) {
    let paper = Paper::new(&rt, false, 0);
    let progress = Progress::new(&paper, true, 100);
    for (seconds, added, text) in &LINES {
        paper.seconds.store(100 + *seconds % 100, Ordering::SeqCst);
        progress.add(*added);
        assert!(rt; paper.says(*text));
    }
    progress.end();
    let (_, _, last) = LINES[4];
    assert!(rt; paper.says(last));
}

// Of the 54 classes of lions alone 33 are settled before a move is made, and then a turn of the one node settles those of the next distance: by the
// list of their values 36 are so with the wins in 1, then 38, 41, 42, 45, 47 and 50.
const BUILT: &str = "some 1 MB of memory for 54 classes
1 s, 61 %, 0 s left
2 s, 66 %, 1 s left
3 s, 70 %, 1 s left
4 s, 75 %, 1 s left
5 s, 77 %, 1 s left
6 s, 83 %, 1 s left
7 s, 87 %, 1 s left
8 s, 92 %, 0 s left
";

// The first of these lines on a terminal, where each takes the place of the one before, and the last one goes at the end.
const SHOWN: &str = "some 1 MB of memory for 54 classes
\r1 s, 61 %, 0 s left\x1b[K\r2 s, 66 %, 1 s left\x1b[K";

// A win in 7 leads to a loss in 6, whose lost classes are searched in three rounds, one for each two plies.
const CERTIFIED: &str = "1 s, 33 %, 2 s left\n2 s, 66 %, 1 s left\n3 s, 99 %, 0 s left\n";

// Whether standard error is a terminal, words, and with which texts begins and ends what is written there: nothing where they are empty.
const WRITTEN: [(bool, &str, &str, &str); 6] = [
    (true, "build|--set|000|--nodes|1|--out|built.db", "", ""),
    (
        false,
        "build|--set|000|--nodes|1|--out|built.db|--progress",
        BUILT,
        " s, 92 %, 0 s left\n",
    ),
    (
        true,
        "build|--set|000|--nodes|1|--out|built.db|--progress",
        SHOWN,
        " s, 92 %, 0 s left\x1b[K\r\x1b[K",
    ),
    (true, "check|--db|000.db", "", ""),
    (
        true,
        "check|--db|000.db|--progress",
        "\r1 s, 99 %, 0 s left\x1b[K\r\x1b[K",
        "\x1b[K\r\x1b[K",
    ),
    (
        false,
        "certify|--db|000.db|--out|000.cert|--progress|l../.../.../L.. - -",
        CERTIFIED,
        CERTIFIED,
    ),
];

// The program writes that on its console where the file of lions alone is there, and on standard error else nothing.
fn writes<R: Abort + Threads + Wait + Sync + AllocGlobal>(
    rt: &R,
    is_terminal: bool,
    given: &str,
    front: &str,
    back: &str,
) {
    let paper = Paper::new(rt, is_terminal, 1);
    let mut shelf = MemShelf::new(rt.alloc());
    assert!(rt; put(&mut shelf, "000.db", lions::FILE));
    let words = words_of(rt, rt.alloc(), given);
    let told = run_on(&paper, rt.alloc(), &mut shelf, &words);
    assert!(rt; told.status == 0 && told.err.bytes().is_empty());
    assert!(rt; paper.says_within(front, back), "{given}");
}

#[test]
fn builds_tell_how_far_they_are(rt: HostRuntime) {
    for (is_terminal, given, front, back) in &WRITTEN {
        writes(&rt, *is_terminal, *given, *front, *back);
    }
}

// Adds up what a check reports.
#[derive(Drop)]
struct Sum(AtomicU64);

impl Watch for Sum {
    ghost told = { λ _ _. Unit {0} };

    fn passed(&self, classes: u64) {
        self.0.fetch_add(classes, Ordering::SeqCst);
    }
}

#[test]
fn each_class_is_reported_once(rt: HostRuntime) {
    let mut source = HeldSource::new(lions::FILE);
    let table = read_table(rt.alloc(), &mut source).expect(&rt, "a table");
    let sum = Sum(AtomicU64::new(0));
    let checked = check_watched(&rt, &table, &sum);
    assert!(rt; checked.is_ok() && sum.0.load(Ordering::SeqCst) == 54);
}
