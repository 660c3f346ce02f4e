// What a game from a position can reach, by rules or by a database file.
ghost use Rattle.std.specs.Prelude.{◌≡◌, ◌<◌, ◌≤◌, ◌+◌, ◌++◌, ℕ, [], IfErr, IfOk, OnOk, length, string_bytes};
ghost use Rattle.dob_pieces.specs.Profiles.{IsAllowed};
ghost use Rattle.dob_rank.specs.Families.{IsPositionOf, class_number};
ghost use Rattle.dob_reach.specs.Reached.{AreReachedFrom};
ghost use Rattle.dob_survey.specs.Reaches.{AreReachLines, AreValuesAsked, IsReachFault, code_lines, front_lines, level_line, level_lines, levels_asked, number_lines, number_object, reach_lines, reach_owed, value_fields, value_line, value_lines, value_text};
ghost use Rattle.dob_files.specs.Owed.{GivesOwed};
ghost use Rattle.dob_words.specs.Readings.{text_given};
ghost use Rattle.dob_shelf.specs.Shelves.{Leaving, SameFiles};

use crate::stats::distance_line;
use dob_classes::Classes;
use dob_files::{Answer, file_and_position};
use dob_lines::{Console, count_object};
use dob_pieces::{Family, Memory, Position, Profile};
use dob_probe::check_member;
use dob_reach::{ByValue, Reached, Watch, reach};
use dob_shelf::Shelf;
use dob_text::read_position;
use dob_value::{Table, Value, value_of_code};
use dob_words::command::ReachSearch;
use std::alloc::Global;
use std::thread::Threads;

// Says on the console's standard error how many classes have which distance, if it is watched.
#[derive(Drop)]
struct Levels<'a, C> {
    console: &'a C,
    is_watched: bool,
}

impl<C: Console> Watch for Levels<'_, C> {
    ghost told = { λ _ _ _. Unit {0} };

    fn met(&self, distance: u64, classes: u64) {
        if self.is_watched {
            let _ = eprintln!(self.console; "ply {distance}: {classes} classes");
        }
    }
}

/// The lines that say how many classes can be reached from that of the position that the text names, how many of them are open and how
/// far the furthest lies; where a database file is named, by its rules and with how many of them are won, lost and drawn. Where that is asked for
/// lines follow that say how many have which value, and which distance; all of them may be JSON objects.
pub fn answer_reach<S: Shelf>(
    rt: &(impl Threads + Sync + Console),
    alloc: Global,
    shelf: &mut S,
    search: ReachSearch,
    file: Option<&str>,
    text: &str,
) -> Answer
    ensures { GivesOwed (reach_owed search (text_given file.entry) text.now) S.state shelf.old shelf.new result }
{
    match file {
        None => by_rules(rt, alloc, search, text),
        Some(file) => by_file(rt, alloc, shelf, search, file, text),
    }
}

// The lines by the rules of the search's profile.
fn by_rules(
    rt: &(impl Threads + Sync + Console),
    alloc: Global,
    search: ReachSearch,
    text: &str,
) -> Answer
    ensures ok { IfOk result (λ lines. AreReachLines search text.now (string_bytes lines)) }
    ensures err { IfErr result (IsReachFault search.profile text.now) }
{
    let position = read_position(search.profile, text)?;
    let classes = classes_for(alloc, search.profile, &position)?;
    let reached = reached_from(rt, alloc, &classes, &position, search.is_watched)?;
    Ok(reach_lines(alloc, search, &reached, None, &[])?)
}

// The classes of the position's family by the rules of the profile.
fn classes_for(alloc: Global, profile: Profile, position: &Position) -> Result<Classes, Memory>
    requires { IsAllowed profile position.now.setup }
    ensures rules { IfOk result (λ classes. classes.family.profile ≡ profile) }
    ensures member { IfOk result (λ classes. IsPositionOf classes.family position.now.setup) }
{
    let family = Family {
        set: position.piece_set(),
        profile,
    };
    Classes::open(alloc, family)
}

// The lines by the table of the file.
fn by_file<S: Shelf>(
    rt: &(impl Threads + Sync + Console),
    alloc: Global,
    shelf: &mut S,
    search: ReachSearch,
    file: &str,
    text: &str,
) -> Answer
    ensures { GivesOwed (reach_owed search (Some file.now) text.now) S.state shelf.old shelf.new result }
{
    let (table, position) = file_and_position(alloc, shelf, file, text)?;
    check_member(table.family(), &position)?;
    let reached = reached_from(rt, alloc, table.classes(), &position, search.is_watched)?;
    let counts = reached.by_value(&table);
    let by_code = values_asked(alloc, search.has_values, &reached, &table)?;
    Ok(reach_lines(alloc, search, &reached, Some(counts), &by_code)?)
}

// How many of the classes that are reached have which value by the table, by its code; nothing where that isn't asked for.
fn values_asked(
    alloc: Global,
    has_values: bool,
    reached: &Reached,
    table: &Table,
) -> Result<Vec<u64>, Memory>
    requires { (from : ℕ) × AreReachedFrom table.now.family from reached.now }
    ensures asked { IfOk result (λ by_code. (from : ℕ) → AreReachedFrom table.now.family from reached.now
        → AreValuesAsked has_values table.now from by_code.items) }
    ensures few { IfOk result (λ by_code. length by_code.items ≤ 65536) }
{
    if has_values {
        reached.by_code(alloc, table)
    } else {
        Ok(Vec::new(alloc))
    }
}

fn reached_from(
    rt: &(impl Threads + Sync + Console),
    alloc: Global,
    classes: &Classes,
    position: &Position,
    is_watched: bool,
) -> Result<Reached, Memory>
    requires member { IsPositionOf classes.now.family position.now.setup }
    ensures { IfOk result (AreReachedFrom classes.now.family (class_number classes.now.family position.now.setup)) }
{
    let levels = Levels {
        console: rt,
        is_watched,
    };
    reach(rt, alloc, classes, position, &levels)
}

// The lines that tell what is reached.
fn reach_lines(
    alloc: Global,
    search: ReachSearch,
    reached: &Reached,
    counts: Option<ByValue>,
    by_code: &[u64],
) -> Result<String, Memory>
    requires some { 0 < length reached.now.levels.items }
    requires few { length by_code.now ≤ 65536 }
    ensures { IfOk result (λ lines. string_bytes lines ≡ reach_lines search reached.now counts by_code.now) }
{
    let mut lines = front_lines(alloc, search.is_json, reached, counts)?;
    let values = code_lines(alloc, search.is_json, by_code)?;
    let levels = levels_asked(alloc, search, &reached.levels)?;
    lines.push_str(values.as_str())?;
    lines.push_str(levels.as_str())?;
    Ok(lines)
}

// The lines of the numbers, and of those of the values where they are known, or the object of both.
fn front_lines(
    alloc: Global,
    is_json: bool,
    reached: &Reached,
    counts: Option<ByValue>,
) -> Result<String, Memory>
    requires { 0 < length reached.now.levels.items }
    ensures { IfOk result (λ lines. string_bytes lines ≡ front_lines is_json reached.now counts) }
{
    if is_json {
        return number_object(alloc, reached, counts);
    }
    let mut lines = number_lines(alloc, reached)?;
    let values = value_lines(alloc, counts)?;
    lines.push_str(values.as_str())?;
    Ok(lines)
}

// The object of the numbers, with those of the values where they are known.
fn number_object(
    alloc: Global,
    reached: &Reached,
    counts: Option<ByValue>,
) -> Result<String, Memory>
    requires { 0 < length reached.now.levels.items }
    ensures { IfOk result (λ line. string_bytes line ≡ number_object reached.now counts) }
{
    let classes = reached.classes;
    let open = reached.opens;
    let depth = reached.depth();
    let values = value_fields(alloc, counts)?;
    Ok(format!(in alloc; "{{\"classes\":{classes},\"open\":{open},\"depth\":{depth}{values}}}\n")?)
}

// The fields of the values, where they are known.
fn value_fields(alloc: Global, counts: Option<ByValue>) -> Result<String, Memory>
    ensures { IfOk result (λ fields. string_bytes fields ≡ value_fields counts) }
{
    match counts {
        None => Ok(String::new(alloc)),
        Some(ByValue { win, loss, draw }) => {
            Ok(format!(in alloc; ",\"win\":{win},\"loss\":{loss},\"draw\":{draw}")?)
        }
    }
}

fn number_lines(alloc: Global, reached: &Reached) -> Result<String, Memory>
    requires { 0 < length reached.now.levels.items }
    ensures { IfOk result (λ lines. string_bytes lines ≡ number_lines reached.now) }
{
    let classes = reached.classes;
    let opens = reached.opens;
    let depth = reached.depth();
    Ok(format!(in alloc; "classes {classes}\nopen {opens}\ndepth {depth}\n")?)
}

// The lines of the values, where these are known.
fn value_lines(alloc: Global, counts: Option<ByValue>) -> Result<String, Memory>
    ensures { IfOk result (λ lines. string_bytes lines ≡ value_lines counts) }
{
    match counts {
        None => Ok(String::new(alloc)),
        Some(counts) => value_text(alloc, counts),
    }
}

// The lines of the values.
fn value_text(alloc: Global, counts: ByValue) -> Result<String, Memory>
    ensures { IfOk result (λ lines. string_bytes lines ≡ value_text counts) }
{
    let win = counts.win;
    let loss = counts.loss;
    let draw = counts.draw;
    Ok(format!(in alloc; "win {win}\nloss {loss}\ndraw {draw}\n")?)
}

// A line for each value that some classes have, by the numbers of their codes.
#[tactic(auto, using(crate::proofs::Levels::one_code))]
fn code_lines(alloc: Global, is_json: bool, by_code: &[u64]) -> Result<String, Memory>
    requires { length by_code.now ≤ 65536 }
    ensures { IfOk result (λ lines. string_bytes lines ≡ code_lines is_json by_code.now (length by_code.now)) }
{
    let mut lines = String::new(alloc);
    for code in 0..by_code.len() {
        push_value(
            alloc,
            &mut lines,
            is_json,
            value_of_code(code as u16),
            by_code[code],
        )?;
    }
    Ok(lines)
}

// Writes the line of a value at the end, if some classes have it.
fn push_value(
    alloc: Global,
    lines: &mut String,
    is_json: bool,
    value: Value,
    classes: u64,
) -> Result<(), Memory>
    ensures { OnOk result (string_bytes lines.new ≡ string_bytes lines.old ++ value_line is_json value classes) }
{
    if classes > 0 {
        let line = value_line(alloc, is_json, value, classes)?;
        lines.push_str(line.as_str())?;
    }
    Ok(())
}

fn value_line(alloc: Global, is_json: bool, value: Value, classes: u64) -> Result<String, Memory>
    requires { 0 < classes }
    ensures { IfOk result (λ line. string_bytes line ≡ value_line is_json value classes) }
{
    if is_json {
        count_object(alloc, value, classes)
    } else {
        distance_line(alloc, value, classes)
    }
}

// A line for each distance, if they are asked for.
fn levels_asked(alloc: Global, search: ReachSearch, levels: &[u64]) -> Result<String, Memory>
    ensures { IfOk result (λ lines. string_bytes lines ≡ levels_asked search levels.now) }
{
    if search.has_levels {
        level_lines(alloc, search.is_json, levels)
    } else {
        Ok(String::new(alloc))
    }
}

// A line for each distance.
#[tactic(auto, using(crate::proofs::Levels::one_level))]
fn level_lines(alloc: Global, is_json: bool, levels: &[u64]) -> Result<String, Memory>
    ensures { IfOk result (λ lines. string_bytes lines ≡ level_lines is_json levels.now (length levels.now)) }
{
    let mut lines = String::new(alloc);
    for distance in 0..levels.len() {
        push_level(
            alloc,
            &mut lines,
            is_json,
            distance as u64,
            levels[distance],
        )?;
    }
    Ok(lines)
}

// Writes the line of a distance at the end.
fn push_level(
    alloc: Global,
    lines: &mut String,
    is_json: bool,
    distance: u64,
    classes: u64,
) -> Result<(), Memory>
    ensures { OnOk result (string_bytes lines.new ≡ string_bytes lines.old ++ level_line is_json distance classes) }
{
    let line = level_line(alloc, is_json, distance, classes)?;
    lines.push_str(line.as_str())?;
    Ok(())
}

fn level_line(alloc: Global, is_json: bool, distance: u64, classes: u64) -> Result<String, Memory>
    ensures { IfOk result (λ line. string_bytes line ≡ level_line is_json distance classes) }
{
    if is_json {
        Ok(format!(in alloc; "{{\"ply\":{distance},\"classes\":{classes}}}\n")?)
    } else {
        Ok(format!(in alloc; "{distance} {classes}\n")?)
    }
}
