// Writing a database file anew, in the format of today.
ghost use Rattle.std.specs.Prelude.{◌≡◌, IfOk, codes, false, length, string_bytes};
ghost use Rattle.dob_dbfile.specs.Format.{bytes_of};
ghost use Rattle.dob_device.specs.Sinks.{change};
ghost use Rattle.dob_files.specs.Keeping.{AreThese, FillsSink, IsFillingFault};
ghost use Rattle.dob_survey.specs.Migrations.{migrate_owed};
ghost use Rattle.dob_lines.specs.Tallies.{count_line};
ghost use Rattle.dob_files.specs.Owed.{GivesOwed};

use dob_dbfile::{Sink, write_table};
use dob_files::{Answer, keep_filled, open};
use dob_pieces::Memory;
use dob_shelf::Shelf;
use dob_value::Table;
use std::alloc::Global;

/// Keeps the table of the file under the other name, in the second format, and gives the line that says how many classes it
/// has. The second file is made when the first one is read whole, and each file has what it had until it is kept, so both may have one name.
pub fn answer_migrate<S: Shelf>(alloc: Global, shelf: &mut S, file: &str, out: &str) -> Answer
    ensures { GivesOwed (migrate_owed file.now out.now) S.state shelf.old shelf.new result }
{
    let table = open(alloc, shelf, file)?;
    let mut sink = shelf.make(out)?;
    let filled = fill_anew(alloc, &mut sink, &table);
    keep_filled(shelf, out, sink, filled)
}

// Fills the sink with the table's file. The line that says how many classes it has.
fn fill_anew<D: Sink>(alloc: Global, sink: &mut D, table: &Table) -> Answer
    requires { (D.state sink.old).has_failed ≡ false }
    ensures { FillsSink (AreThese (count_line (codes "classes ") (length table.now.values)) (bytes_of table.now)) (IsFillingFault table.now) result
        (change (D.state sink.old) (D.state sink.new)) }
{
    let line = class_line(alloc, table.class_count())?;
    write_table(alloc, table, sink)?;
    Ok(line)
}

// The line that says how many classes there are.
fn class_line(alloc: Global, classes: u64) -> Result<String, Memory>
    ensures { IfOk result (λ line. string_bytes line ≡ count_line (codes "classes ") classes) }
{
    Ok(format!(in alloc; "classes {classes}\n")?)
}
