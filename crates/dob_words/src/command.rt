// What the words of the program `dobutsu` ask for, read by `clap`.
//
// A further subcommand, as `stats --db FILE`, has
// - here a row with its help in rows.rt; a variant of `LinesOrder` and an arm of `order_for` in command/orders.rt; and its name and its texts in
//   specs/Readings.antt;
// - in dob_query (a position), dob_survey (a table, what a game can reach), dob_verdict (a certificate) or dob_build (a build) what it owes in a file of specs/, as
//   `stats_owed`, and its answer in a file of src/, each named in the Lib.antt or lib.rt there; and what the answer's proof needs in
//   proofs/FILE/answer_NAME/Answers.antt;
// - in dob_cli an arm of `owed_by` in specs/Orders.antt and one of `answer` in program.rt, with a line in its Answers.antt; and where a value table's file makes
//   its answer right, an arm of `rightly` in proofs/Orders.antt.
// What is asked of a position by a file, as `best --db FILE POSITION`, is a form of a `Question` instead, and asked by `--each` too.
ghost use Rattle.std.specs.Prelude.{◌≡◌, [], IfOk, IfSome, List, Option, false, is_some, map, true};
ghost use Rattle.std.specs.List.{list_any};
ghost use Rattle.std.specs.Str.{bytes_eq};
ghost use Rattle.clap.specs.Words.{App, kind_of, new_app, subcommand_rows_of};
ghost use Rattle.dob_words.specs.Forms.{Form, Text, first_rows, form_named, forms, last_rows, later_rows, middle_rows, rows};
ghost use Rattle.dob_words.specs.Lines.{IsAmong, IsCommandLine};
ghost use Rattle.dob_words.specs.Words.{Meaning, asks, has_topic, is_topic, is_version, meaning_of, meaning_of_topic, names_subcommand, without_conflict};
ghost use Rattle.dob_words.specs.Shapes.{AreProfiles, Finds, HasCommandShape, HasFit, IsMetBySome, IsNamed, IsProgram, IsRead, bare_app, choice_rule, choice_said, first_app, flag_rule, flag_said, is_stream_in, place_rule, place_said, row_app, row_said, texts_in, with_rows, with_rules};
ghost use Rattle.dob_words.specs.Readings.{ComesFromLine, IsReadFor, IsReadingOf, IsReadingOfKind};

mod misplaced;
mod orders;

use crate::rows::{FIRST_ROWS, LAST_ROWS, LATER_ROWS, MIDDLE_ROWS, PROGRAM};
use crate::table::{
    Argument, ArgumentKind, Flag, OptionArgument, PROFILES, Presence, SubcommandRow,
};
use clap::error::ErrorKind;
use clap::{Arg, ArgAction, ArgMatches, Command, Error, value_parser};
use misplaced::Misplaced;
pub use orders::{
    Asked, BuildOrder, By, CertifyOrder, LineForm, LinesOrder, MovesForm, Order, PuzzleSearch,
    Question, ReachSearch, StatsForm, ValueForm,
};
use std::alloc::{AllocError, Global};

/// What the words come to.
#[derive(Drop)]
pub enum Reading<'a> {
    /// Something to do.
    Order(Order<'a>),
    /// The help that was asked for, for standard output.
    Help(String),
    /// That the program's version was asked for.
    Version,
    /// What is wrong with the words, for standard error.
    Usage(String),
}

/// Reads the words after the program's name. `--help`, `-h` and the subcommand `help`, alone or with the name of another
/// one, give a help. As the first word `--version` asks for the version. A word that begins with `-` is an option, except a lone `-`,
/// the first `--` and what follows it.
///
/// # Errors
///
/// `AllocError` if memory runs out, and for no other cause.
pub fn read_words<'a>(alloc: Global, words: &'a [&'a str]) -> Result<Reading<'a>, AllocError>
    ensures meaning { IfOk result (IsReadingOf (meaning_of (map (λ w. w.now) words.now))) }
    ensures sound { IfOk result (ComesFromLine (map (λ w. w.now) words.now)) }
    ensures complete { (form : Form) (texts : List (Option Text)) → IsAmong form forms
        → IsCommandLine form (map (λ w. w.now) words.now) texts → IfOk result (IsReadingOf (without_conflict (asks form.name texts))) }
{
    read_meant(alloc, words)
}

// Reads the words, as their meaning says.
fn read_meant<'a>(alloc: Global, words: &'a [&'a str]) -> Result<Reading<'a>, AllocError>
    ensures { IfOk result (IsReadingOf (meaning_of (map (λ w. w.now) words.now))) }
{
    if asks_version(words) {
        return Ok(Reading::Version);
    }
    match dobutsu_command(alloc)?.try_get_matches_from(words) {
        Ok(matches) => read_matches(alloc, &matches),
        Err(error) => {
            if asks_topic(words) {
                read_topic(alloc, words, &error)
            } else {
                read_error(alloc, &error)
            }
        }
    }
}

// Whether the first word is `--version`.
fn asks_version(words: &[&str]) -> bool
    ensures { result ≡ is_version (map (λ w. w.now) words.now) }
{
    match words {
        [] => false,
        [word, ..] => *word == "--version",
    }
}

// Whether the first word is `help`.
fn asks_topic(words: &[&str]) -> bool
    ensures { result ≡ is_topic (map (λ w. w.now) words.now) }
{
    match words {
        [] => false,
        [word, ..] => *word == "help",
    }
}

// What the words from `help` on come to, for which `clap` has this error. Which of its two texts it prints its contract leaves open, so the words say it.
fn read_topic<'a>(alloc: Global, words: &[&str], error: &Error) -> Result<Reading<'a>, AllocError>
    ensures { IfOk result (IsReadingOf (meaning_of_topic (map (λ w. w.now) words.now))) }
{
    match (error.kind(), has_topic(words)) {
        (ErrorKind::OutOfMemory, _) => Err(AllocError),
        (_, true) => Ok(Reading::Help(format!(in alloc; "{error}")?)),
        (_, false) => Ok(Reading::Usage(format!(in alloc; "{error}")?)),
    }
}

// Whether the words are `help` alone, or with the name of a subcommand.
fn has_topic(words: &[&str]) -> bool
    ensures { result ≡ has_topic (map (λ w. w.now) words.now) }
{
    match words {
        [_] => true,
        [_, name] => names_subcommand(name),
        [] | [_, _, _, ..] => false,
    }
}

// Whether a subcommand has that name, `help` among them.
fn names_subcommand(name: &str) -> bool
    ensures { result ≡ names_subcommand name.now }
{
    name == "help" || row_named(name).is_some()
}

// The row of that name, if there is one.
fn row_named<'a>(name: &str) -> Option<&'a SubcommandRow>
    ensures { is_some result ≡ list_any (λ n. bytes_eq n name.now) (map (λ r. r.0) rows) }
{
    row_among(first_rows(), name)
        .or(row_among(middle_rows(), name))
        .or(row_among(later_rows(), name))
        .or(row_among(last_rows(), name))
}

// The row of that name, if it is one of these.
fn row_among<'a>(rows: &'a [SubcommandRow], name: &str) -> Option<&'a SubcommandRow>
    ensures { is_some result ≡ list_any (λ n. bytes_eq n name.now) (map (λ r. r.0) (map row_said rows.now)) }
{
    for row in rows {
        let (own, ..) = *row;
        if own == name {
            return Some(row);
        }
    }
    None
}

// What `--rules` takes, in a struct, so that a loop's invariant can name the reference.
#[derive(Clone, Copy)]
struct Profiles<'a> {
    names: &'a [&'a str],
}

// The program's command with its subcommands.
fn dobutsu_command<'a>(alloc: Global) -> Result<Command<'a>, AllocError>
    ensures { IfOk result IsProgram }
{
    let profiles = Profiles {
        names: profile_names(),
    };
    let command = first_command(alloc, profiles)?;
    let command = add_subcommands(alloc, command, profiles, later_rows())?;
    add_subcommands(alloc, command, profiles, last_rows())
}

// The program's command with its first twelve subcommands.
fn first_command<'a>(alloc: Global, profiles: Profiles<'a>) -> Result<Command<'a>, AllocError>
    ensures { IfOk result (HasCommandShape (first_app profiles.entry.names)) }
{
    let command = bare_command(alloc)?;
    let command = add_subcommands(alloc, command, profiles, first_rows())?;
    add_subcommands(alloc, command, profiles, middle_rows())
}

// The first six subcommands.
fn first_rows<'a>() -> &'a [SubcommandRow]
    ensures { map row_said result.now ≡ first_rows }
{
    FIRST_ROWS
}

// The seventh to the twelfth subcommand.
fn middle_rows<'a>() -> &'a [SubcommandRow]
    ensures { map row_said result.now ≡ middle_rows }
{
    MIDDLE_ROWS
}

// The thirteenth to the fifteenth subcommand.
fn later_rows<'a>() -> &'a [SubcommandRow]
    ensures { map row_said result.now ≡ later_rows }
{
    LATER_ROWS
}

// The subcommands from the sixteenth on.
fn last_rows<'a>() -> &'a [SubcommandRow]
    ensures { map row_said result.now ≡ last_rows }
{
    LAST_ROWS
}

fn add_subcommands<'a>(
    alloc: Global,
    mut command: Command<'a>,
    profiles: Profiles<'a>,
    rows: &[SubcommandRow],
) -> Result<Command<'a>, AllocError>
    ensures { (app : App) → HasCommandShape app command.entry → IfOk result (HasCommandShape (with_rows profiles.entry.names app (map row_said rows.now))) }
{
    for row in rows {
        command = command.subcommand(row_command(alloc, profiles, row)?)?;
    }
    Ok(command)
}

fn row_command<'a>(
    alloc: Global,
    profiles: Profiles<'a>,
    row: &SubcommandRow,
) -> Result<Command<'a>, AllocError>
    ensures { IfOk result (HasCommandShape (row_app profiles.entry.names (row_said row.now))) }
{
    let (name, about, help, options, flags, places) = *row;
    let command = named_command(alloc, name, about, help);
    let command = add_options(alloc, command, profiles, options)?;
    let command = add_flags(alloc, command, flags)?;
    add_places(alloc, command, profiles, places)
}

// A subcommand without its arguments.
fn named_command<'a>(alloc: Global, name: &'a str, about: &'a str, help: &'a str) -> Command<'a>
    ensures { HasCommandShape (new_app name.now) result }
{
    Command::new(alloc, name).about(about).after_help(help)
}

fn add_options<'a>(
    alloc: Global,
    mut command: Command<'a>,
    profiles: Profiles<'a>,
    options: &[OptionArgument],
) -> Result<Command<'a>, AllocError>
    ensures { (app : App) → HasCommandShape app command.entry
        → IfOk result (HasCommandShape (with_rules app (map (choice_rule profiles.entry.names) (map choice_said options.now)))) }
{
    for choice in options {
        command = command.arg(choice_argument(alloc, profiles, choice))?;
    }
    Ok(command)
}

fn add_flags<'a>(
    alloc: Global,
    mut command: Command<'a>,
    flags: &[Flag],
) -> Result<Command<'a>, AllocError>
    ensures { (app : App) → HasCommandShape app command.entry → IfOk result (HasCommandShape (with_rules app (map flag_rule (map flag_said flags.now)))) }
{
    for flag in flags {
        command = command.arg(flag_argument(alloc, flag))?;
    }
    Ok(command)
}

// The command with these texts, each by its place.
fn add_places<'a>(
    alloc: Global,
    mut command: Command<'a>,
    profiles: Profiles<'a>,
    places: &[Argument],
) -> Result<Command<'a>, AllocError>
    ensures { (app : App) → HasCommandShape app command.entry
        → IfOk result (HasCommandShape (with_rules app (map (place_rule profiles.entry.names) (map place_said places.now)))) }
{
    for place in places {
        command = command.arg(place_argument(alloc, profiles, place))?;
    }
    Ok(command)
}

// What `--rules` takes.
fn profile_names<'a>() -> &'a [&'a str]
    ensures { AreProfiles result }
{
    PROFILES
}

// The program's command without its subcommands.
fn bare_command<'a>(alloc: Global) -> Result<Command<'a>, AllocError>
    ensures { IfOk result (HasCommandShape bare_app) }
{
    Command::new(alloc, "dobutsu")
        .no_binary_name(true)
        .subcommand_required(true)
        .about("Values of positions of Dobutsu shogi, and the sizes of its piece sets")
        .after_help(PROGRAM)
        .bin_name("dobutsu")
}

fn choice_argument<'a>(alloc: Global, profiles: Profiles<'a>, choice: &OptionArgument) -> Arg<'a>
    ensures { IsRead (choice_rule profiles.entry.names (choice_said choice.now)) result }
{
    let (name, place) = choice;
    place_argument(alloc, profiles, place).long(name)
}

// A flag. Its text is empty if it is given.
fn flag_argument<'a>(alloc: Global, flag: &Flag) -> Arg<'a>
    ensures { IsRead (flag_rule (flag_said flag.now)) result }
{
    let (name, help) = *flag;
    Arg::new(alloc, name)
        .long(name)
        .action(ArgAction::Set)
        .num_args(0)
        .default_missing_value("")
        .help(help)
}

// A text by its place.
fn place_argument<'a>(alloc: Global, profiles: Profiles<'a>, place: &Argument) -> Arg<'a>
    ensures { IsRead (place_rule profiles.entry.names (place_said place.now)) result }
{
    let (label, kind, need, help) = *place;
    let argument = Arg::new(alloc, label)
        .required(matches!(need, Presence::Must))
        .help(help);
    match kind {
        ArgumentKind::Any | ArgumentKind::Output => argument,
        ArgumentKind::Number => {
            let number = value_parser!(u64);
            argument.value_parser(number)
        }
        ArgumentKind::Profile => argument.value_parser(profiles.names),
    }
}

// What the words come to that have these matches of the program's command.
fn read_matches<'a>(alloc: Global, matches: &ArgMatches<'a>) -> Result<Reading<'a>, AllocError>
    requires { IsMetBySome (subcommand_rows_of matches.now) }
    ensures { (form : Form) (texts : List (Option Text)) → IsAmong form forms → Finds form texts (subcommand_rows_of matches.now)
        → IfOk result (IsReadingOf (without_conflict (asks form.name texts))) }
{
    match matches.subcommand() {
        Some((name, inner)) => read_order(alloc, order_by(name, inner), name, inner),
        None => unreachable!(),
    }
}

// What the matches of the subcommand of that name ask for, if it is clear and can be.
fn order_by<'a>(name: &str, inner: &ArgMatches<'a>) -> Option<Order<'a>>
    requires named { IsNamed name.now forms }
    requires fit { HasFit (form_named name.now) inner.now }
    ensures { IsReadFor (without_conflict (asks name.now (texts_in (form_named name.now) inner.now))) result }
{
    match misplaced_in(name, inner) {
        Some(_) => None,
        None => orders::order_for(name, inner),
    }
}

// What the words come to where these matches of the subcommand of that name were read so, and what is said of them if they ask for nothing.
fn read_order<'a>(
    alloc: Global,
    order: Option<Order<'a>>,
    name: &str,
    inner: &ArgMatches<'a>,
) -> Result<Reading<'a>, AllocError>
    ensures { (meant : Meaning) → IsReadFor meant order.entry → IfOk result (IsReadingOf meant) }
{
    match order {
        Some(order) => Ok(Reading::Order(order)),
        None => Ok(Reading::Usage(refusal_text(alloc, name, inner)?)),
    }
}

// What is said where the matches of the subcommand of that name ask for nothing.
fn refusal_text(alloc: Global, name: &str, inner: &ArgMatches<'_>) -> Result<String, AllocError> {
    match misplaced_in(name, inner) {
        Some(stream) => stream.text(alloc),
        None => {
            if name == "reach" {
                fileless_text(alloc)
            } else {
                unclear_text(alloc, name)
            }
        }
    }
}

// The option of the subcommand of that name for which its matches have a stream where a file is written, if there is one.
fn misplaced_in<'a>(name: &str, inner: &ArgMatches<'a>) -> Option<Misplaced<'a>>
    ensures { is_some result ≡ list_any (λ row. is_stream_in name.now inner.now row) rows }
{
    misplaced::stream_of(first_rows(), name, inner)
        .or(misplaced::stream_of(middle_rows(), name, inner))
        .or(misplaced::stream_of(later_rows(), name, inner))
        .or(misplaced::stream_of(last_rows(), name, inner))
}

// What is said where the subcommand is asked by a position and by `--each`, or by none of them.
fn unclear_text(alloc: Global, name: &str) -> Result<String, AllocError> {
    format!(in alloc;
        "error: one of '<POSITION>' and '--each' has to be given, and just one

Usage: dobutsu {name} --db <FILE> <POSITION>
       dobutsu {name} --db <FILE> --each

For more information, try '--help'.
"
    )
}

// What is said where `reach` is asked for a line for each value, and by no file.
fn fileless_text(alloc: Global) -> Result<String, AllocError> {
    format!(in alloc;
        "error: '--values' needs '--db <FILE>'

Usage: dobutsu reach --db <FILE> --values <POSITION>

For more information, try '--help'.
"
    )
}

// What other words come to, for which `clap` has this error.
fn read_error<'a>(alloc: Global, error: &Error) -> Result<Reading<'a>, AllocError>
    ensures { IfOk result (IsReadingOfKind (kind_of error.now)) }
{
    match error.kind() {
        ErrorKind::OutOfMemory => Err(AllocError),
        ErrorKind::DisplayHelp => Ok(Reading::Help(format!(in alloc; "{error}")?)),
        _ => Ok(Reading::Usage(format!(in alloc; "{error}")?)),
    }
}
