// Whether a position is one of those that a table has values of.
ghost use Rattle.std.specs.Prelude.{IfErr, OnOk};
ghost use Rattle.dob_rank.specs.Families.{IsPositionOf};
ghost use Rattle.dob_probe.specs.Faults.{IsRefusal};

use crate::fault::Fault;
use dob_pieces::{Family, Position};

/// Passes the positions of the family.
///
/// # Errors
///
/// `FarChick` exactly if the family's profile doesn't allow the position, whatever its pieces; `OtherSet` exactly if
/// it does, and its pieces aren't those of the family's set.
pub fn check_member(family: Family, position: &Position) -> Result<(), Fault>
    ensures member { OnOk result (IsPositionOf family position.now.setup) }
    ensures refused { IfErr result (IsRefusal family position.now.setup) }
{
    if !position.is_allowed(family.profile) {
        Err(Fault::FarChick)
    } else if position.piece_set() != family.set {
        Err(Fault::OtherSet)
    } else {
        Ok(())
    }
}
