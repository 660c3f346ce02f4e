// How far a build or a check is, by lines on the process's standard error. Nothing is promised of what comes there.
ghost use Rattle.std.specs.Prelude.{◌≡◌, ◌<◌, ◌^◌, Some};
ghost use Rattle.dob_lines.specs.Progress.{line_at, megabytes, percent, seconds_left};

use dob_check::Watch;
use std::fmt;
use std::io::IsTerminal;
use std::rt::Clock;
use std::sync::atomic::{AtomicU64, Ordering};
use std::time::Instant;

/// The clock and the standard error of the process.
pub trait Console: Clock + Eprint {
    /// Whether standard error is a terminal, where a line can take the place of the one before it.
    fn is_terminal(&self) -> bool;
}

impl Console for HostRuntime {
    fn is_terminal(&self) -> bool {
        self.stderr().is_terminal()
    }
}

/// How far some work is. Whoever works reports to it what is done, as to a build's gate and a check's watch, from any thread; it writes a
/// line a second at most on the console's standard error.
#[derive(Drop)]
pub struct Progress<'a, C> {
    console: &'a C,
    // When the work began; none if nothing is reported.
    start: Option<Instant>,
    all: u64,
    done: AtomicU64,
    // At which second the last line was written.
    last: AtomicU64,
}

impl<'a, C: Console> Progress<'a, C> {
    /// Of work with `all` parts that begins now. Nothing is reported where it isn't to be watched, or where no clock can be read.
    pub fn new(console: &'a C, is_watched: bool, all: u64) -> Progress<'a, C> {
        Progress {
            console,
            start: start_of(console, is_watched),
            all,
            done: AtomicU64::new(0),
            last: AtomicU64::new(0),
        }
    }

    /// Clears the line of a terminal, once nothing more is reported.
    pub fn end(&self) {
        if self.last.load(Ordering::SeqCst) > 0 && self.console.is_terminal() {
            let _ = eprint!(self.console; "\r\x1b[K");
        }
    }

    /// `parts` more parts are done. A line says so if none was written in this second.
    pub fn add(&self, parts: u64) {
        let Some(start) = self.start else {
            return;
        };
        let done = self
            .done
            .fetch_add(parts, Ordering::SeqCst)
            .saturating_add(parts);
        let Ok(gone) = start.elapsed(self.console) else {
            return;
        };
        let seconds = gone.as_secs();
        if self.last.fetch_max(seconds, Ordering::SeqCst) < seconds {
            self.write(line_at(seconds, done, self.all));
        }
    }

    // Writes the line; in place on a terminal.
    fn write(&self, line: Line) {
        let _ = if self.console.is_terminal() {
            eprint!(self.console; "\r{line}\x1b[K")
        } else {
            eprintln!(self.console; "{line}")
        };
    }
}

impl<C: Console> Watch for Progress<'_, C> {
    ghost told = { λ _ _. Unit {0} };

    fn passed(&self, classes: u64) {
        self.add(classes);
    }
}

/// Says on the console's standard error what memory a build of `classes` classes takes.
pub fn tell_need(console: &impl Console, classes: u64)
    requires { classes < 2 ^ 31 }
{
    let megabytes = megabytes(classes);
    let _ = eprintln!(console; "some {megabytes} MB of memory for {classes} classes");
}

// When the work begins, where it is to be watched and the clock can be read.
fn start_of<C: Console>(console: &C, is_watched: bool) -> Option<Instant> {
    if is_watched {
        Instant::now(console).ok()
    } else {
        None
    }
}

// What a line says.
#[derive(Clone, Copy)]
struct Line {
    seconds: u64,
    percent: u64,
    left: Option<u128>,
}

impl fmt::Display for Line {
    ghost use Rattle.dob_lines.specs.Progress.{line_text};

    ghost output = { λ line. Some (line_text line) };

    fn fmt<W: fmt::Write>(&self, f: &mut fmt::Formatter<W>) -> fmt::Result {
        let seconds = self.seconds;
        let percent = self.percent;
        match self.left {
            None => write!(f, "{seconds} s, {percent} %"),
            Some(left) => write!(f, "{seconds} s, {percent} %, {left} s left"),
        }
    }
}

// The line of the moment at which so much of all is done.
fn line_at(seconds: u64, done: u64, all: u64) -> Line
    ensures { result ≡ line_at seconds done all }
{
    Line {
        seconds,
        percent: percent(done, all),
        left: seconds_left(seconds, done, all),
    }
}

// How much of all is done, in whole percent, 99 at most.
fn percent(done: u64, all: u64) -> u64
    ensures { result ≡ percent done all }
{
    let whole = 100 * done as u128 / all.max(1) as u128;
    whole.min(99) as u64
}

// The seconds that are left by the speed so far, once a whole percent is done.
fn seconds_left(seconds: u64, done: u64, all: u64) -> Option<u128>
    ensures { result ≡ seconds_left seconds done all }
{
    if percent(done, all) == 0 {
        return None;
    }
    let left = all.saturating_sub(done) as u128;
    Some(seconds as u128 * left / done as u128)
}

// The megabytes that a build of `classes` classes takes.
fn megabytes(classes: u64) -> u64
    requires { classes < 2 ^ 31 }
    ensures { result ≡ megabytes classes }
{
    (9 * classes + 999_999) / 1_000_000
}
