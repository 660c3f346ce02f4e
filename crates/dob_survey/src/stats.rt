// How many classes of a database file's table have which value, and examples of the longest win and the longest loss.
ghost use Rattle.std.specs.Prelude.{◌≡◌, ◌<◌, IfOk, IfSome, flat_map, length, string_bytes};
ghost use Rattle.dob_probe.specs.Statistics.{AreGroups};
ghost use Rattle.dob_survey.specs.Stats.{AreStatsFor, AreStatsOf, IsLongestLine, csv_lines, distance_line, group_text, longest_of, longest_text, stats_owed, value_row, with_group};
ghost use Rattle.dob_files.specs.Owed.{GivesOwed};

use dob_check::statistics;
use dob_files::{Answer, open};
use dob_lines::{count_object, joined, lines_of};
use dob_pieces::Memory;
use dob_probe::Group;
use dob_shelf::Shelf;
use dob_text::write_position;
use dob_value::{Table, Value};
use dob_words::command::StatsForm;
use std::alloc::Global;
use std::thread::Threads;

/// The last group of wins and the last of losses, if there are any.
#[derive(Clone, Copy)]
pub(crate) struct Longest {
    pub(crate) win: Option<Group>,
    pub(crate) loss: Option<Group>,
}

/// The lines that say how many classes of the file's table have which value, and the longest win and loss with an example each; or,
/// for scripts, a line of two fields for each value that occurs, below their names, or a JSON object for each.
pub fn answer_stats<S: Shelf>(
    rt: &(impl Threads + Sync),
    alloc: Global,
    shelf: &mut S,
    file: &str,
    form: StatsForm,
) -> Answer
    ensures { GivesOwed (stats_owed file.now form) S.state shelf.old shelf.new result }
{
    let table = open(alloc, shelf, file)?;
    let groups = statistics(rt, alloc, &table)?;
    Ok(told_lines(rt, alloc, &table, &groups, form)?)
}

// The lines about the table, by its groups, in one of the three ways.
fn told_lines(
    rt: &(impl Threads + Sync),
    alloc: Global,
    table: &Table,
    groups: &[Group],
    form: StatsForm,
) -> Result<String, Memory>
    requires { AreGroups table.now.values groups.now }
    ensures { IfOk result (λ lines. AreStatsFor form table.now groups.now (string_bytes lines)) }
{
    match form {
        StatsForm::Lines => stats_lines(rt, alloc, table, groups),
        StatsForm::Csv => csv_lines(alloc, groups),
        StatsForm::Objects => group_lines(alloc, form, groups),
    }
}

// A line of two fields for each group, below their names.
fn csv_lines(alloc: Global, groups: &[Group]) -> Result<String, Memory>
    ensures { IfOk result (λ lines. string_bytes lines ≡ csv_lines groups.now) }
{
    let rows = group_lines(alloc, StatsForm::Csv, groups)?;
    Ok(format!(in alloc; "value,classes\n{rows}")?)
}

// The lines about the table, by its groups.
fn stats_lines(
    rt: &(impl Threads + Sync),
    alloc: Global,
    table: &Table,
    groups: &[Group],
) -> Result<String, Memory>
    requires { AreGroups table.now.values groups.now }
    ensures { IfOk result (λ lines. AreStatsOf table.now groups.now (string_bytes lines)) }
{
    let mut lines = lines_of(rt, alloc, table)?;
    let distances = group_lines(alloc, StatsForm::Lines, groups)?;
    let longest = longest_of(groups);
    let win = longest_line(alloc, table, longest.win)?;
    let loss = longest_line(alloc, table, longest.loss)?;
    lines.push_str(distances.as_str())?;
    lines.push_str(win.as_str())?;
    lines.push_str(loss.as_str())?;
    Ok(lines)
}

// The lines of the groups, in one of the three ways.
fn group_lines(alloc: Global, form: StatsForm, groups: &[Group]) -> Result<String, Memory>
    ensures { IfOk result (λ lines. string_bytes lines ≡ flat_map (group_text form) groups.now) }
{
    joined(alloc, groups, |group| group_text(alloc, form, group))
}

// The line of the group, in one of the three ways.
fn group_text(alloc: Global, form: StatsForm, group: Group) -> Result<String, Memory>
    ensures { IfOk result (λ line. string_bytes line ≡ group_text form group) }
{
    match form {
        StatsForm::Lines => distance_line(alloc, group.value, group.classes),
        StatsForm::Csv => value_row(alloc, ",", group.value, group.classes),
        StatsForm::Objects => count_object(alloc, group.value, group.classes),
    }
}

// How many classes have a distance; the draws come before.
pub(crate) fn distance_line(alloc: Global, value: Value, classes: u64) -> Result<String, Memory>
    ensures { IfOk result (λ line. string_bytes line ≡ distance_line value classes) }
{
    match value {
        Value::Win(_) | Value::Loss(_) => value_row(alloc, " ", value, classes),
        Value::Draw => Ok(String::new(alloc)),
    }
}

// A value and how many classes have it, with that text between them.
fn value_row(alloc: Global, between: &str, value: Value, classes: u64) -> Result<String, Memory>
    ensures { IfOk result (λ line. string_bytes line ≡ value_row between.now value classes) }
{
    match value {
        Value::Win(plies) => Ok(format!(in alloc; "win {plies}{between}{classes}\n")?),
        Value::Loss(plies) => Ok(format!(in alloc; "loss {plies}{between}{classes}\n")?),
        Value::Draw => Ok(format!(in alloc; "draw{between}{classes}\n")?),
    }
}

// The last group of wins and the last of losses.
fn longest_of(groups: &[Group]) -> Longest
    ensures { result ≡ longest_of groups.now }
{
    let mut longest = Longest {
        win: None,
        loss: None,
    };
    let mut left = groups;
    while let Some((first, rest)) = left.split_first() {
        longest = with_group(longest, *first);
        left = rest;
    }
    longest
}

// The lines with one group more.
fn with_group(longest: Longest, group: Group) -> Longest
    ensures { result ≡ with_group longest group }
{
    match group.value {
        Value::Win(_) => Longest {
            win: Some(group),
            ..longest
        },
        Value::Loss(_) => Longest {
            loss: Some(group),
            ..longest
        },
        Value::Draw => longest,
    }
}

// The line of the group's value with the position of its first class, or nothing if there is no group.
fn longest_line(alloc: Global, table: &Table, group: Option<Group>) -> Result<String, Memory>
    requires { IfSome group (λ group. group.first < length table.now.values) }
    ensures { IfOk result (λ line. IsLongestLine table.now group (string_bytes line)) }
{
    match group {
        None => Ok(String::new(alloc)),
        Some(group) => {
            let position = table.classes().class_at(group.first);
            let text = write_position(alloc, &position)?;
            longest_text(alloc, group.value, text.as_str())
        }
    }
}

// The line of a longest win or loss with that example.
fn longest_text(alloc: Global, value: Value, text: &str) -> Result<String, Memory>
    ensures { IfOk result (λ line. string_bytes line ≡ longest_text value text.now) }
{
    match value {
        Value::Win(plies) => Ok(format!(in alloc; "longest win {plies} {text}\n")?),
        Value::Loss(plies) => Ok(format!(in alloc; "longest loss {plies} {text}\n")?),
        Value::Draw => Ok(String::new(alloc)),
    }
}
