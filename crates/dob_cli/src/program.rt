// The program: from its words to what it prints and its exit status.
ghost use Rattle.std.specs.Prelude.{◌≡◌, ◌≢◌, ℕ, List, IfOk, IfErr, IfSome, IsTrue, drop, false, map, string_bytes, true};
ghost use Rattle.std.specs.IoError.{error_kind};
ghost use Rattle.std.specs.declared.io.ErrorKind.TheVariants.{OutOfMemory};
ghost use Rattle.std.specs.Vec.Iter.{into_iter_items};
ghost use Rattle.dob_device.specs.Sinks.{Says, change};
ghost use Rattle.dob_cli.specs.Runs.{DoesPlaced, IsCauseLine, LeavesShelf, MaySayCause, Ran, RanAt, RanOver, TellsNoText, contents};
ghost use Rattle.dob_cli.specs.Orders.{AnswersOrder, KeepsFiles, MakesWhatItReads, makes_file, owed_by};
ghost use Rattle.dob_query.specs.QuestionsEach.{AnswersEach};
ghost use Rattle.dob_shelf.specs.Shelves.{Changes, Leaving, SameFiles};
ghost use Rattle.dob_files.specs.Endings.{Tells, TellsFaultAs, TellsMemory, TellsOneFault, ended};
ghost use Rattle.dob_files.specs.Owed.{GivesOwed};
ghost use Rattle.dob_files.specs.Faults.{fault_line};
ghost use Rattle.dob_files.specs.Telling.{status_of_lines};
ghost use Rattle.dob_files.specs.declared.fault.ProgramFault.TheVariants.{Io, Memory};

use crate::shown::{shown, shown_usage};
use dob_build::answer_build;
use dob_dbfile::{Lent, Sink, put_all, write_all};
use dob_files::{Answer, ProgramFault};
use dob_lines::Console;
use dob_query::{answer_count, answer_question, answer_question_each, answer_show, answer_value};
use dob_shelf::Shelf;
use dob_survey::{
    answer_check, answer_migrate, answer_puzzles, answer_reach, answer_stats, answer_zugzwangs,
};
use dob_verdict::{answer_certify, answer_info, answer_reply, answer_verify};
use dob_words::command::{Asked, LinesOrder, Order, Reading, read_words};
use std::alloc::{AllocError, Global};
use std::env::Args;
use std::io::{self, Write};
use std::sync::Wait;
use std::thread::Threads;

/// The exit status for words that the program doesn't know.
const USAGE: u8 = 2;

/// The program's name and version.
const VERSION: &str = "dobutsu 0.1.0\n";

/// What is said where the file to be made is another thing than a file of its own.
const MISPLACED: &[u8] =
    b"error: the file to be made is the one that is read, or a stream of the program\n\nFor more information, try '--help'.\n";

/// What is said where an argument isn't UTF-8.
const NO_TEXT: &[u8] = b"error: an argument is not UTF-8\n\nFor more information, try '--help'.\n";

// How it ended: the exit status, and whether that is because a device failed (E24).
#[derive(Clone, Copy)]
struct Told {
    status: u8,
    is_io: bool,
}

impl Told {
    // That status, where no device failed.
    fn ending(status: u8) -> Told
        ensures status { result.status ≡ status }
        ensures io { result.is_io ≡ false }
    {
        Told {
            status,
            is_io: false,
        }
    }
}

/// Runs the program by its words, those after the program's name. Database files come from the shelf, and the one of a
/// build goes there; its promises hold if it returns, since the threads of a build may wait. What it prints goes
/// to the writer `out`; errors and usage messages go to `err`. The answer is the exit status.
///
/// With the word `--progress` a build and a check also say how far they are, on the console of `rt` and not on `err`: of that nothing
/// is promised.
///
/// The status is 0 if it is done or help was asked for, 1 if what was asked, or a line of standard input, is refused, 2 for words that it
/// doesn't know, 3 for lack of memory, for a distance above 65,534 plies, for a build that stops and where `out` or a file fails. Where `err` fails,
/// the status is the same.
pub fn run_words<'a, S: Shelf, O: Write, E: Write>(
    rt: &(impl Threads + Wait + Sync + Console),
    alloc: Global,
    words: &'a [&'a str],
    shelf: &mut S,
    out: &mut O,
    err: &mut E,
) -> u8
    ensures { Changes S.state shelf.old shelf.new (λ c. RanOver c (map (λ w. w.now) words.now) result
        (contents (O.contents out.old) (O.contents out.new)) (contents (E.contents err.old) (E.contents err.new))) }
{
    let mut told = Lent::new(out);
    let mut said = Lent::new(err);
    let status = run_over(rt, alloc, words, shelf, &mut told, &mut said);
    // These two do nothing at run time. The proof reads from them what the writers hold.
    let _ = &*told.into_inner();
    let _ = &*said.into_inner();
    status
}

/// Runs the program as `run_words` does, over streams that are sinks as a file's is, so that it is known of them where
/// they were flushed and whether they failed. A writer of the standard library is one behind `Std` or `Lent`.
pub fn run_over<'a, S: Shelf, O: Sink, E: Sink>(
    rt: &(impl Threads + Wait + Sync + Console),
    alloc: Global,
    words: &'a [&'a str],
    shelf: &mut S,
    out: &mut O,
    err: &mut E,
) -> u8
    ensures { Changes S.state shelf.old shelf.new (λ c. Ran c (map (λ w. w.now) words.now)
        (ended result (change (O.state out.old) (O.state out.new)) (change (E.state err.old) (E.state err.new)))) }
{
    run_told(rt, alloc, words, shelf, out, err).status
}

// Runs the program so, and tells whether it ended because a device failed.
fn run_told<'a, S: Shelf, O: Sink, E: Sink>(
    rt: &(impl Threads + Wait + Sync + Console),
    alloc: Global,
    words: &'a [&'a str],
    shelf: &mut S,
    out: &mut O,
    err: &mut E,
) -> Told
    ensures ran { Changes S.state shelf.old shelf.new (λ c. Ran c (map (λ w. w.now) words.now)
        (ended result.status (change (O.state out.old) (O.state out.new)) (change (E.state err.old) (E.state err.new)))) }
    ensures io { IsTrue result.is_io → Says (change (E.state err.old) (E.state err.new)) (fault_line Io) }
{
    match read_words(alloc, words) {
        Err(AllocError) => Told::ending(tell_memory(err)),
        Ok(Reading::Help(text)) => tell(alloc, text.as_str(), out, err),
        Ok(Reading::Version) => tell(alloc, VERSION, out, err),
        Ok(Reading::Usage(text)) => {
            tell_usage(alloc, words, text, err);
            Told::ending(USAGE)
        }
        Ok(Reading::Order(order)) => run_placed(rt, alloc, order, shelf, out, err),
    }
}

// Says what is wrong with the words, which have that text, by words that show their control characters where memory is left for them.
fn tell_usage<E: Sink>(alloc: Global, words: &[&str], text: String, err: &mut E)
    ensures { (text : List ℕ) × Says (change (E.state err.old) (E.state err.new)) text }
{
    match shown_usage(alloc, words) {
        Ok(Some(shown)) => say(err, shown.as_bytes()),
        _ => say(err, text.as_bytes()),
    }
}

// Does what is ordered; or refuses to make a file that is the one that is read, or one of the program's streams.
fn run_placed<S: Shelf, O: Sink, E: Sink>(
    rt: &(impl Threads + Wait + Sync + Console),
    alloc: Global,
    order: Order<'_>,
    shelf: &mut S,
    out: &mut O,
    err: &mut E,
) -> Told
    ensures done { Changes S.state shelf.old shelf.new (λ c. DoesPlaced c order.entry
        (ended result.status (change (O.state out.old) (O.state out.new)) (change (E.state err.old) (E.state err.new)))) }
    ensures io { IsTrue result.is_io → Says (change (E.state err.old) (E.state err.new)) (fault_line Io) }
{
    let is_refused = is_misplaced(shelf, &order);
    if is_refused {
        say(err, MISPLACED);
        return Told::ending(USAGE);
    }
    run_order(rt, alloc, order, shelf, out, err)
}

// Whether the file that is to be made is one of the program's streams, or the one that is read.
fn is_misplaced<S: Shelf>(shelf: &S, order: &Order<'_>) -> bool
    ensures never { MakesWhatItReads order.now → result ≡ true }
    ensures only { result ≡ true → IsTrue (makes_file order.now) × (IsTrue (S.state shelf.now).tells → MakesWhatItReads order.now) }
{
    match order {
        Order::Lines(LinesOrder::Build(order)) => shelf.is_stream(order.file),
        Order::Lines(LinesOrder::Certify(order)) => {
            shelf.is_stream(order.out) || shelf.is_same_file(order.out, order.file)
        }
        Order::Lines(LinesOrder::Migrate { out, .. }) => shelf.is_stream(out),
        Order::Lines(
            LinesOrder::Show {
                file: Some(file),
                picture: Some(picture),
                ..
            },
        ) => shelf.is_stream(picture) || shelf.is_same_file(picture, file),
        Order::Lines(
            LinesOrder::Show {
                picture: Some(picture),
                ..
            },
        ) => shelf.is_stream(picture),
        _ => false,
    }
}

// Does what is ordered: prints the lines that answer it, or of each line of standard input what it is answered.
fn run_order<S: Shelf, O: Sink, E: Sink>(
    rt: &(impl Threads + Wait + Sync + Console),
    alloc: Global,
    order: Order<'_>,
    shelf: &mut S,
    out: &mut O,
    err: &mut E,
) -> Told
    ensures done { Leaving (KeepsFiles order.entry) S.state shelf.old shelf.new (λ c. AnswersOrder c order.entry
        (ended result.status (change (O.state out.old) (O.state out.new)) (change (E.state err.old) (E.state err.new)))) }
    ensures io { IsTrue result.is_io → Says (change (E.state err.old) (E.state err.new)) (fault_line Io) }
{
    match order {
        Order::Lines(order) => match answer(rt, alloc, order, shelf) {
            Ok(lines) => tell(alloc, lines.as_str(), out, err),
            Err(fault) => tell_fault(alloc, fault, err),
        },
        Order::EachLine { file, asked } => run_each(alloc, file, asked, shelf, out, err),
    }
}

// Prints what each line of standard input is answered, before the next one is waited for.
fn run_each<S: Shelf, O: Sink, E: Sink>(
    alloc: Global,
    file: &str,
    asked: Asked,
    shelf: &mut S,
    out: &mut O,
    err: &mut E,
) -> Told
    ensures done { Leaving SameFiles S.state shelf.old shelf.new (λ c. AnswersEach asked c file.now
        (ended result.status (change (O.state out.old) (O.state out.new)) (change (E.state err.old) (E.state err.new)))) }
    ensures io { IsTrue result.is_io → Says (change (E.state err.old) (E.state err.new)) (fault_line Io) }
{
    match answer_question_each(alloc, shelf, out, file, asked) {
        Ok(is_refused) => Told::ending(status_of_lines(is_refused)),
        Err(fault) => tell_fault(alloc, fault, err),
    }
}

// The exit status where that is told.
fn status_of_lines(is_refused: bool) -> u8
    ensures { result ≡ status_of_lines is_refused }
{
    if is_refused { 1 } else { 0 }
}

// The lines that answer what is ordered.
fn answer<S: Shelf>(
    rt: &(impl Threads + Wait + Sync + Console),
    alloc: Global,
    order: LinesOrder<'_>,
    shelf: &mut S,
) -> Answer
    ensures { GivesOwed (owed_by order.entry) S.state shelf.old shelf.new result }
{
    match order {
        LinesOrder::Value { profile, position } => answer_value(alloc, profile, position),
        LinesOrder::Count { profile, set } => answer_count(alloc, profile, set),
        LinesOrder::Reach {
            search,
            file,
            position,
        } => answer_reach(rt, alloc, shelf, search, file, position),
        LinesOrder::Build(order) => answer_build(rt, alloc, shelf, order),
        LinesOrder::Ask {
            file,
            asked,
            position,
        } => answer_question(alloc, shelf, file, asked, position),
        LinesOrder::Check { file, is_watched } => answer_check(rt, alloc, shelf, file, is_watched),
        LinesOrder::Show {
            file,
            picture,
            position,
        } => answer_show(alloc, shelf, file, picture, position),
        LinesOrder::Stats { file, form } => answer_stats(rt, alloc, shelf, file, form),
        LinesOrder::Zugzwangs { file, listed } => answer_zugzwangs(rt, alloc, shelf, file, listed),
        LinesOrder::Puzzles { file, search } => answer_puzzles(alloc, shelf, file, search),
        LinesOrder::Migrate { file, out } => answer_migrate(alloc, shelf, file, out),
        LinesOrder::Certify(order) => answer_certify(rt, alloc, shelf, order),
        LinesOrder::Verify { file, is_watched } => answer_verify(
            rt, alloc, shelf, file, is_watched,
        ),
        LinesOrder::Reply { file, position } => answer_reply(alloc, shelf, file, position),
        LinesOrder::Info { file, is_object } => answer_info(alloc, shelf, file, is_object),
    }
}

// Prints a line, or a few, on standard output. The status is 0 where that works.
fn tell<O: Sink, E: Sink>(alloc: Global, line: &str, out: &mut O, err: &mut E) -> Told
    ensures told { Tells line.now (ended result.status (change (O.state out.old) (O.state out.new)) (change (E.state err.old) (E.state err.new))) }
    ensures io { IsTrue result.is_io → Says (change (E.state err.old) (E.state err.new)) (fault_line Io) }
{
    match put_all(out, line.as_bytes()) {
        Ok(()) => Told::ending(0),
        Err(_failed) => tell_fault(alloc, ProgramFault::Io, err),
    }
}

// Writes the bytes as far as the stream takes them.
fn say<E: Sink>(err: &mut E, bytes: &[u8])
    ensures { Says (change (E.state err.old) (E.state err.new)) bytes.now }
{
    let _written = write_all(err, bytes);
}

fn line_of_fault(alloc: Global, fault: ProgramFault) -> Result<String, AllocError>
    ensures { IfOk result (λ line. string_bytes line ≡ fault_line fault) }
{
    format!(in alloc; "dobutsu: {fault}\n")
}

// Prints a fault on standard error, or that no memory was left for it.
fn tell_fault<E: Sink>(alloc: Global, fault: ProgramFault, err: &mut E) -> Told
    ensures told { TellsOneFault fault result.status (change (E.state err.old) (E.state err.new)) }
    ensures io { IsTrue result.is_io → Says (change (E.state err.old) (E.state err.new)) (fault_line Io) }
{
    match line_of_fault(alloc, fault) {
        Ok(line) => {
            say(err, line.as_bytes());
            Told {
                status: fault.status(),
                is_io: fault.is_io(),
            }
        }
        Err(AllocError) => Told::ending(tell_memory(err)),
    }
}

// The line of a cause, with its control characters escaped.
fn cause_line(alloc: Global, cause: &str) -> Result<Vec<u8>, AllocError>
    ensures { IfOk result (λ line. IsCauseLine line.items) }
{
    let shown = shown(alloc, cause.as_bytes())?;
    let mut line = Vec::new(alloc);
    line.extend_from_slice(b"  ")?;
    line.extend_from_slice(&shown)?;
    line.push(b'\n')?;
    Ok(line)
}

// Prints the cause, where the shelf knows it and memory is left for its line.
fn tell_cause<S: Shelf, E: Sink>(alloc: Global, shelf: &S, err: &mut E)
    ensures { MaySayCause (change (E.state err.old) (E.state err.new)) }
{
    let Ok(Some(cause)) = shelf.said(alloc) else {
        return;
    };
    if let Ok(line) = cause_line(alloc, cause.as_str()) {
        say(err, &line);
    }
}

/// Reports on `err` that no memory was left, as where the words themselves can't be kept. It takes no memory itself. The
/// answer is the exit status.
pub fn tell_memory<E: Sink>(err: &mut E) -> u8
    ensures { TellsFaultAs Memory result (change (E.state err.old) (E.state err.new)) }
{
    say(err, b"dobutsu: E23 Memory\n");
    ProgramFault::Memory.status()
}

/// Runs the program by what it was given: its name and arguments, or why they can't be had.
/// Database files come from the shelf, and go there.
///
/// It does what `run_over` does with the words after the name. Where `err` is a terminal, the cause of E24 stands below that, where the shelf
/// knows it. Where memory for the words was refused, it says so (E23, status 3); where one of them isn't UTF-8, it says that (status 2).
pub fn run_given<S: Shelf, O: Sink, E: Sink>(
    rt: &(impl Threads + Wait + Sync + Console),
    alloc: Global,
    given: io::Result<Args>,
    shelf: &mut S,
    out: &mut O,
    err: &mut E,
    is_terminal: bool,
) -> u8
    ensures words { IfOk given (λ args. Changes S.state shelf.old shelf.new (λ c. RanAt is_terminal c (map string_bytes (drop 1 (into_iter_items args)))
        (ended result (change (O.state out.old) (O.state out.new)) (change (E.state err.old) (E.state err.new))))) }
    ensures memory { IfErr given (λ error. error_kind error ≡ OutOfMemory → TellsMemory
        (ended result (change (O.state out.old) (O.state out.new)) (change (E.state err.old) (E.state err.new)))) }
    ensures unread { IfErr given (λ error. error_kind error ≢ OutOfMemory → TellsNoText
        (ended result (change (O.state out.old) (O.state out.new)) (change (E.state err.old) (E.state err.new)))) }
    ensures shelf { IfErr given (λ _. Changes S.state shelf.old shelf.new LeavesShelf) }
{
    match given {
        Ok(args) => run_args(rt, alloc, args, shelf, out, err, is_terminal),
        Err(error) => match error.kind() {
            io::ErrorKind::OutOfMemory => tell_memory(err),
            _ => {
                say(err, NO_TEXT);
                USAGE
            }
        },
    }
}

// Runs the program by its name and arguments.
fn run_args<S: Shelf, O: Sink, E: Sink>(
    rt: &(impl Threads + Wait + Sync + Console),
    alloc: Global,
    args: Args,
    shelf: &mut S,
    out: &mut O,
    err: &mut E,
    is_terminal: bool,
) -> u8
    ensures { Changes S.state shelf.old shelf.new (λ c. RanAt is_terminal c (map string_bytes (drop 1 (into_iter_items args)))
        (ended result (change (O.state out.old) (O.state out.new)) (change (E.state err.old) (E.state err.new)))) }
{
    let Ok(given) = words_of(alloc, args) else {
        return tell_memory(err);
    };
    let Ok(words) = texts_of(alloc, &given) else {
        return tell_memory(err);
    };
    run_at(rt, alloc, &words, shelf, out, err, is_terminal)
}

// Runs the program as `run_over` does, and at a terminal tells the cause below E24.
fn run_at<'a, S: Shelf, O: Sink, E: Sink>(
    rt: &(impl Threads + Wait + Sync + Console),
    alloc: Global,
    words: &'a [&'a str],
    shelf: &mut S,
    out: &mut O,
    err: &mut E,
    is_terminal: bool,
) -> u8
    ensures { Changes S.state shelf.old shelf.new (λ c. RanAt is_terminal c (map (λ w. w.now) words.now)
        (ended result (change (O.state out.old) (O.state out.new)) (change (E.state err.old) (E.state err.new)))) }
{
    let told = run_told(rt, alloc, words, shelf, out, err);
    if is_terminal && told.is_io {
        tell_cause(alloc, shelf, err);
    }
    told.status
}

// The arguments but the first, which is the program's name.
fn words_of(alloc: Global, mut args: Args) -> Result<Vec<String>, AllocError>
    ensures { IfOk result (λ words. words.items ≡ drop 1 (into_iter_items args)) }
{
    let _name = args.next();
    let mut words = Vec::new(alloc);
    for word in args {
        words.push(word)?;
    }
    Ok(words)
}

// The words as texts.
fn texts_of<'a>(alloc: Global, given: &'a [String]) -> Result<Vec<&'a str>, AllocError>
    ensures { IfOk result (λ words. map (λ w. w.now) words.items ≡ map string_bytes given.now) }
{
    let mut words = Vec::new(alloc);
    for word in given {
        words.push(word.as_str())?;
    }
    Ok(words)
}
