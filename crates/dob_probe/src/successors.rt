// What decides the value of a class: its successors' values: only the least loss, the greatest win and whether
// there is a draw are kept.
ghost use Rattle.std.specs.Prelude.{◌≡◌, ◌<◌, ◌++◌, List, [], ◌∷◌, length};
ghost use Rattle.dob_moves.specs.MoveWalks.{IsWalk};
ghost use Rattle.dob_moves.specs.Shown.{setup_on};
ghost use Rattle.dob_rank.specs.Families.{IsPositionOf, class_setup};
ghost use Rattle.dob_distance.specs.declared.value.Value.{Value as Valued};
ghost use Rattle.dob_value.specs.Graphs.{AreSuccessors};
ghost use Rattle.dob_value.specs.Follows.{Follows};
ghost use Rattle.dob_distance.specs.Distances.{lesser_of, greater_of};
ghost use Rattle.dob_probe.specs.Lines.{GivenBy};
ghost use Rattle.dob_probe.specs.Sums.{AreSummed, HasNext, value_after};

use dob_moves::{PositionBoard, Status, Walk};
use dob_value::{Table, Value, outcome_at, representative_of};

/// What is kept of the successors' values.
#[derive(Clone, Copy)]
pub(crate) struct Successors {
    pub(crate) least_loss: Option<u16>,
    pub(crate) greatest_win: Option<u16>,
    pub(crate) has_draw: bool,
}

impl Successors {
    // The sum of no values, where a position has no move.
    fn none() -> Successors
        ensures { AreSummed [] result }
    {
        Successors {
            least_loss: None,
            greatest_win: None,
            has_draw: false,
        }
    }

    // The sum with the value of one more successor.
    fn with(self, value: Value) -> Successors
        ensures { (values : List Valued) → AreSummed values self → AreSummed (values ++ value ∷ []) result }
    {
        match value {
            Value::Win(plies) => Successors {
                greatest_win: Some(greater(self.greatest_win, plies)),
                ..self
            },
            Value::Loss(plies) => Successors {
                least_loss: Some(lesser(self.least_loss, plies)),
                ..self
            },
            Value::Draw => Successors {
                has_draw: true,
                ..self
            },
        }
    }

    // The value that follows from them: a win in one ply more than the least loss; if there is none, a draw if there
    // is a draw, and else a loss in one ply more than the greatest win.
    fn value(self) -> Value
        requires least { HasNext self.least_loss }
        requires greatest { HasNext self.greatest_win }
        ensures { result ≡ value_after self.least_loss self.greatest_win self.has_draw }
    {
        match (self.least_loss, self.greatest_win) {
            (Some(least), _) => Value::Win(least + 1),
            (None, Some(greatest)) if !self.has_draw => Value::Loss(greatest + 1),
            _ => Value::Draw,
        }
    }
}

// The lesser of a distance that may be there and another.
fn lesser(least: Option<u16>, plies: u16) -> u16
    ensures { result ≡ lesser_of least plies }
{
    match least {
        Some(least) => least.min(plies),
        None => plies,
    }
}

// The greater of a distance that may be there and another.
fn greater(greatest: Option<u16>, plies: u16) -> u16
    ensures { result ≡ greater_of greatest plies }
{
    match greatest {
        Some(greatest) => greatest.max(plies),
        None => plies,
    }
}

/// The value that follows from the status of the class's representative and from the values that the table gives its successors. The walk is room for its moves.
pub(crate) fn value_that_follows(walk: &mut Walk, table: &Table, class: u64) -> Value
    requires { class < length table.now.values }
    ensures { Follows table.now.family.profile (GivenBy table.now) (class_setup table.now.family class) result }
{
    let position = representative_of(table.classes(), class);
    match walk.start(table.family().profile, &position) {
        Status::Caught => Value::Win(1),
        Status::Tried | Status::Stuck => Value::Loss(0),
        Status::Open => successors_of(table, &position, walk).value(),
    }
}

// The values of the positions to which the moves of that walk lead.
fn successors_of(table: &Table, position: &PositionBoard, walk: &Walk) -> Successors
    requires member { IsPositionOf table.now.family (setup_on position.now.board) }
    requires walk { IsWalk table.now.family.profile (setup_on position.now.board) walk.now }
    ensures { (values : List Valued) × AreSuccessors table.now.family.profile (λ v q. GivenBy table.now q v) (setup_on position.now.board) values × AreSummed values result }
{
    let mut kept = Successors::none();
    for place in 0..walk.len() {
        let outcome = outcome_at(table.family(), walk, place);
        kept = kept.with(table.value_on(&outcome.position));
    }
    kept
}
