// The position that is asked for, and the table of the file that is asked.
ghost use Rattle.std.specs.Prelude.{MatchResult};
ghost use Rattle.dob_pieces.specs.declared.profile.Profile.TheVariants.{A};
ghost use Rattle.dob_text.specs.Faults.{HasTextFault};
ghost use Rattle.dob_shelf.specs.Shelves.{Leaving, SameFiles};
ghost use Rattle.dob_files.specs.Endings.{GivesOver};
ghost use Rattle.dob_files.specs.Tables.{AreAsked, IsPositionFault, IsTextOf};

use crate::fault::ProgramFault;
use crate::tables::open;
use dob_pieces::{Position, Profile};
use dob_shelf::Shelf;
use dob_text::{TextFault, read_position, read_position_bytes};
use dob_value::Table;
use std::alloc::Global;

/// The table of the file, and the position that the text names. The file is opened only if the text is a position's.
pub fn file_and_position<S: Shelf>(
    alloc: Global,
    shelf: &mut S,
    file: &str,
    text: &str,
) -> Result<(Table, Position), ProgramFault>
    ensures { Leaving SameFiles S.state shelf.old shelf.new (λ c.
        GivesOver c (λ asked. AreAsked (c.before.has file.now) text.now asked.0 asked.1.setup) (IsPositionFault (c.before.has file.now) text.now) result) }
{
    let position = position_named(text)?;
    let table = open(alloc, shelf, file)?;
    Ok((table, position))
}

/// The position that the text names. The rules of A allow each legal one; those of a file may not, which its table says.
pub fn position_named(text: &str) -> Result<Position, TextFault>
    ensures { MatchResult result (λ position. IsTextOf text.now position.setup) (HasTextFault A text.now) }
{
    read_position(Profile::A, text)
}

/// The position that a line of bytes names, by the rules of A.
pub fn position_in_line(line: &[u8]) -> Result<Position, TextFault>
    ensures { MatchResult result (λ position. IsTextOf line.now position.setup) (HasTextFault A line.now) }
{
    read_position_bytes(Profile::A, line)
}
