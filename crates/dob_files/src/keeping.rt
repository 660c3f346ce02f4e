// Files that are filled and kept.
ghost use Rattle.std.specs.Prelude.{◌≡◌, false, string_bytes};
ghost use Rattle.dob_dbfile.specs.Faults.{fails};
ghost use Rattle.dob_dbfile.specs.Format.{bytes_of, digest_of};
ghost use Rattle.dob_device.specs.Sinks.{change};
ghost use Rattle.dob_shelf.specs.Shelves.{Leaving, SameOthers};
ghost use Rattle.dob_files.specs.Faults.{is_io};
ghost use Rattle.dob_files.specs.Keeping.{AreThese, FillsSink, IsShelfFault, IsWritingFault, KeepsFilled};

use crate::fault::{Answer, ProgramFault};
use dob_dbfile::{FailedAfter, Sink, put_all, write_digested};
use dob_shelf::Shelf;
use dob_value::Table;
use std::alloc::Global;

/// Keeps the file of the sink that the shelf made for the name, if it was filled, and gives it up if not. The lines that go with it.
pub fn keep_filled<S: Shelf>(shelf: &mut S, name: &str, sink: S::Dst, filled: Answer) -> Answer
    requires failed { (S.Dst.state sink).has_failed ≡ fails is_io filled }
    requires made { (S.state shelf.old).made ≡ name.now }
    ensures { Leaving (SameOthers name.now) S.state shelf.old shelf.new (KeepsFilled name.now (S.Dst.state sink).received filled result) }
{
    match filled {
        Ok(lines) => {
            shelf.keep(name, sink)?;
            Ok(lines)
        }
        Err(fault) => {
            shelf.discard(name, sink);
            Err(fault)
        }
    }
}

/// Fills the sink with the table's file, with the digest that was made of it, and gives back the lines that go with it.
pub fn fill_with_table<D: Sink>(
    alloc: Global,
    sink: &mut D,
    table: &Table,
    digest: &[u8; 32],
    lines: String,
) -> Answer
    requires working { (D.state sink.old).has_failed ≡ false }
    requires digested { digest.now ≡ digest_of table.now }
    ensures { FillsSink (AreThese (string_bytes lines) (bytes_of table.now)) (IsWritingFault table.now) result
        (change (D.state sink.old) (D.state sink.new)) }
{
    write_digested(alloc, table, digest, sink)?;
    Ok(lines)
}

/// Fills the sink with the bytes, and gives back the lines that go with them.
pub fn fill<D: Sink>(sink: &mut D, bytes: &[u8], lines: String) -> Answer
    requires { (D.state sink.old).has_failed ≡ false }
    ensures { FillsSink (AreThese (string_bytes lines) bytes.now) IsShelfFault result (change (D.state sink.old) (D.state sink.new)) }
{
    match put_all(sink, bytes) {
        Ok(()) => Ok(lines),
        Err(FailedAfter { .. }) => Err(ProgramFault::Io),
    }
}
