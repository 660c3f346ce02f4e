// The table of a database file.
ghost use Rattle.dob_shelf.specs.Shelves.{Leaving, SameFiles};
ghost use Rattle.dob_files.specs.Endings.{GivesOver};
ghost use Rattle.dob_files.specs.Tables.{IsFileOf, IsOpeningFault};
ghost use Rattle.std.specs.Prelude.{◌≡◌};

use crate::fault::ProgramFault;
use dob_dbfile::read_table;
use dob_shelf::Shelf;
use dob_value::Table;
use std::alloc::Global;

/// The table of the file.
pub fn open<S: Shelf>(alloc: Global, shelf: &mut S, file: &str) -> Result<Table, ProgramFault>
    ensures opened { Leaving SameFiles S.state shelf.old shelf.new (λ c.
        GivesOver c (IsFileOf (c.before.has file.now)) (IsOpeningFault (c.before.has file.now)) result) }
    ensures told { (S.state shelf.new).tells ≡ (S.state shelf.old).tells }
    ensures input { (S.state shelf.new).input ≡ (S.state shelf.old).input }
{
    let mut source = shelf.find(file)?;
    let read = read_table(alloc, &mut source);
    shelf.close(source);
    Ok(read?)
}
