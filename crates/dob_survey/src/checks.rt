// Whether the table of a database file is consistent, and so the value table.
ghost use Rattle.std.specs.Prelude.{◌≡◌, IfOk, IfErr, string_bytes};
ghost use Rattle.dob_value.specs.Follows.{IsConsistent, IsValueTable};
ghost use Rattle.dob_probe.specs.Faults.{IsFaultOfCheck};
ghost use Rattle.dob_survey.specs.Checks.{check_owed, consistent_line};
ghost use Rattle.dob_files.specs.Owed.{GivesOwed};

use dob_check::{check, check_watched};
use dob_files::{Answer, open};
use dob_lines::{Console, Progress};
use dob_pieces::Memory;
use dob_shelf::Shelf;
use dob_value::Table;
use std::alloc::Global;
use std::thread::Threads;

/// The line that says that the table of the file is consistent, and so the value table. Where it is watched, lines on the console
/// say how far it is.
pub fn answer_check<S: Shelf>(
    rt: &(impl Threads + Sync + Console),
    alloc: Global,
    shelf: &mut S,
    file: &str,
    is_watched: bool,
) -> Answer
    ensures { GivesOwed (check_owed file.now) S.state shelf.old shelf.new result }
{
    let table = open(alloc, shelf, file)?;
    check_table(rt, alloc, &table, is_watched)?;
    Ok(consistent_line(alloc)?)
}

// The line that says that a table is consistent.
fn consistent_line(alloc: Global) -> Result<String, Memory>
    ensures { IfOk result (λ line. string_bytes line ≡ consistent_line) }
{
    Ok("consistent\n".to_string(alloc)?)
}

// Whether the table is consistent. Where it is watched, the console says how far that is.
fn check_table(
    rt: &(impl Threads + Sync + Console),
    alloc: Global,
    table: &Table,
    is_watched: bool,
) -> Result<(), dob_probe::Fault>
    ensures consistent { IfOk result (λ _. IsConsistent table.now.family table.now.values) }
    ensures right { IfOk result (λ _. IsValueTable table.now.family table.now.values) }
    ensures fault { IfErr result (IsFaultOfCheck table.now) }
{
    if !is_watched {
        return check(rt, table);
    }
    let progress = Progress::new(rt, true, table.class_count());
    let checked = check_watched(rt, table, &progress);
    progress.end();
    checked
}
