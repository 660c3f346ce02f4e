// The value of a position from a table.
ghost use Rattle.std.specs.Prelude.{IfErr, IfOk, OnOk};
ghost use Rattle.dob_rank.specs.Families.{IsPositionOf};
ghost use Rattle.dob_distance.specs.Values.{HasValue};
ghost use Rattle.dob_distance.specs.Codes.{IsEntry};
ghost use Rattle.dob_value.specs.Follows.{IsConsistent};
ghost use Rattle.dob_probe.specs.Faults.{IsRefusal};
ghost use Rattle.dob_probe.specs.Lines.{GivenBy};

use crate::fault::Fault;
use crate::members::check_member;
use dob_pieces::Position;
use dob_value::{Table, Value};

/// The value that the table gives the position's class. By a table that `check` passes it is the position's value.
///
/// # Errors
///
/// `FarChick` exactly if the table's profile doesn't allow the position; `OtherSet` exactly if it does, and the position
/// isn't of the table's set.
pub fn probe(table: &Table, position: &Position) -> Result<Value, Fault>
    ensures value { IfOk result (λ value. GivenBy table.now position.now.setup value) }
    ensures entry { IfOk result IsEntry }
    ensures right { IsConsistent table.now.family table.now.values → IfOk result (λ value. HasValue table.now.family.profile position.now.setup value) }
    ensures member { OnOk result (IsPositionOf table.now.family position.now.setup) }
    ensures refused { IfErr result (IsRefusal table.now.family position.now.setup) }
{
    check_member(table.family(), position)?;
    Ok(table.value_of(position))
}
