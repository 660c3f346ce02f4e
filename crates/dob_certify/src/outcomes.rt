// The values of classes by a table, and the classes to which the moves of a class lead.
ghost use Rattle.std.specs.Prelude.{◌<◌};
ghost use Rattle.dob_moves.specs.Shown.{setup_on};
ghost use Rattle.dob_rank.specs.Families.{IsPositionOf, classes_of};

use dob_classes::Classes;
use dob_moves::{PositionBoard, Walk};
use dob_pieces::Memory;
use dob_value::{Table, Value, class_of, outcome_at, representative_of};

/// Which of the classes to which moves lead are listed.
#[derive(Clone, Copy)]
pub(crate) enum Listed {
    /// All classes to which moves lead.
    All,
    /// Those whose side to move can't catch the lion.
    Uncaught,
}

/// The value that the table gives the class; a draw where the table has no class of that number.
pub(crate) fn value_in(table: &Table, class: u32) -> Value {
    let class = class as u64;
    if class < table.class_count() {
        table.value(class)
    } else {
        Value::Draw
    }
}

/// Writes the classes to which the moves of the class's representative lead, by ascending number and each once, in place of what
/// the list had; none if the table has no class of that number.
///
/// # Errors
///
/// `Memory`.
pub(crate) fn list_outcomes(
    table: &Table,
    class: u32,
    listed: Listed,
    outcomes: &mut Vec<u32>,
) -> Result<(), Memory> {
    outcomes.clear();
    let classes = table.classes();
    let class = class as u64;
    if class < classes.class_count() {
        push_outcomes(classes, class, listed, outcomes)?;
    }
    outcomes.sort_unstable();
    outcomes.dedup();
    Ok(())
}

// Appends the classes to which the moves of the class's representative lead.
//
// Error: `Memory`.
fn push_outcomes(
    classes: &Classes,
    class: u64,
    listed: Listed,
    outcomes: &mut Vec<u32>,
) -> Result<(), Memory>
    requires { class < classes_of classes.now.family }
{
    let position = representative_of(classes, class);
    let mut walk = Walk::new();
    let _status = walk.start(classes.family.profile, &position);
    for place in 0..walk.len() {
        let next = outcome_at(classes.family, &walk, place).position;
        if matches!(listed, Listed::All) || !next.can_catch() {
            outcomes.push(number_of(classes, &next))?;
        }
    }
    Ok(())
}

pub(crate) fn number_of(classes: &Classes, position: &PositionBoard) -> u32
    requires { IsPositionOf classes.now.family (setup_on position.now.board) }
{
    let _count = classes.class_count();
    class_of(classes, position) as u32
}
