// The values of a whole family, and the value of one position.
ghost use Rattle.std.specs.Prelude.{◌≡◌, ◌<◌, All, Some, IfOk, IsErrOf, length, slice_get};
ghost use Rattle.dob_pieces.specs.Profiles.{IsAllowed};
ghost use Rattle.dob_rank.specs.Families.{classes_of};
ghost use Rattle.dob_rank.specs.Families.{IsPositionOf};
ghost use Rattle.dob_distance.specs.Values.{HasValue};
ghost use Rattle.dob_value.specs.Rosters.{SomeTooDeep, HasSamePieces};
ghost use Rattle.dob_distance.specs.Codes.{IsEntry};
ghost use Rattle.dob_value.specs.Follows.{IsValueTable};
ghost use Rattle.dob_value.specs.Graphs.{AreValues};
ghost use Rattle.dob_value.specs.Bounds.{HasManyClasses};

use crate::sweep::sweep;
use crate::table::Table;
use dob_classes::Classes;
use dob_distance::{MAX_DISTANCE, Value, ValueFault};
use dob_pieces::{Family, Memory, Position, Profile};
use std::alloc::Global;

/// The values of all positions of the family, by sweeps over its classes.
///
/// # Errors
///
/// `TooDeep`, only if some position of the family is won or lost in more than `MAX_DISTANCE` plies, and the family
/// has more classes than that; `Memory`.
pub fn sweep_table(alloc: Global, family: Family) -> Result<Table, ValueFault>
    ensures family { IfOk result (λ table. table.family ≡ family) }
    ensures values { IfOk result (λ table. IsValueTable family table.values) }
    ensures deep { IsErrOf result ValueFault.TooDeep → SomeTooDeep family.profile (IsPositionOf family) }
    ensures many { IsErrOf result ValueFault.TooDeep → MAX_DISTANCE < classes_of family }
{
    let classes = Classes::open(alloc, family)?;
    let values = sweep(alloc, &classes)?;
    Ok(table_of(alloc, classes, &values)?)
}

fn table_of(alloc: Global, classes: Classes, values: &[Value]) -> Result<Table, Memory>
    requires values { AreValues classes.family values.now }
    requires entries { All IsEntry values.now }
    ensures family { IfOk result (λ table. table.family ≡ classes.family) }
    ensures values { IfOk result (λ table. IsValueTable classes.family table.values) }
{
    let value_at = |class: u64| -> Value
        requires { class < length values.now }
        ensures { slice_get values.entry.now class ≡ Some result }
    { values[class as usize] };
    Table::from_fn(alloc, classes, value_at)
}

/// The value of the position by the rules of the profile, by sweeps over all its positions with the same pieces. `sweep_table`
/// gives the values of them all at once.
///
/// # Errors
///
/// `TooDeep`, only if some position with the same pieces is won or lost in more than `MAX_DISTANCE` plies, and these
/// have more classes than that; `Memory`.
pub fn sweep_value(
    alloc: Global,
    profile: Profile,
    position: &Position,
) -> Result<Value, ValueFault>
    requires { IsAllowed profile position.now.setup }
    ensures value { IfOk result (λ value. HasValue profile position.now.setup value) }
    ensures deep { IsErrOf result ValueFault.TooDeep → SomeTooDeep profile (HasSamePieces profile position.now.setup) }
    ensures many { IsErrOf result ValueFault.TooDeep → HasManyClasses profile position.now.setup }
{
    let family = Family {
        set: position.piece_set(),
        profile,
    };
    let table = sweep_table(alloc, family)?;
    Ok(table.value_of(position))
}
