// What the moves of a position of a family lead to, and the classes of positions, by boards.
ghost use Rattle.std.specs.Prelude.{◌≡◌, ◌<◌, Some, length, slice_get};
ghost use Rattle.dob_pieces.specs.declared.setup.Setup.{Setup};
ghost use Rattle.dob_moves.specs.declared.position_status.Status.{Status};
ghost use Rattle.dob_moves.specs.Moves.{CanGo, Goes};
ghost use Rattle.dob_moves.specs.MoveWalks.{IsWalk};
ghost use Rattle.dob_moves.specs.Shown.{setup_on};
ghost use Rattle.dob_moves.specs.Statuses.{HasStatus};
ghost use Rattle.dob_rank.specs.Families.{IsInClass, IsPositionOf, RepresentsClass, classes_of, class_setup};
ghost use Rattle.dob_value.specs.Outcomes.{IsOutcome};

use dob_classes::Classes;
use dob_moves::{Move, Outcome, PositionBoard, Walk, apply};
use dob_pieces::{Family, Position, Side};

/// The position of the family to which the move of an open one leads.
pub fn outcome_of(family: Family, position: &Position, played: Move) -> Position
    requires member { IsPositionOf family position.now.setup }
    requires played { HasStatus family.profile position.now.setup Status.Open × CanGo family.profile position.now.setup played }
    ensures member { IsPositionOf family result.setup }
    ensures goes { Goes family.profile position.now.setup played result.setup }
    ensures alone { (q : Setup) → Goes family.profile position.now.setup played q → result.setup ≡ q }
{
    apply(position, played)
}

/// The move at that place of a walk over the moves of a position of the family, and what it leads to.
#[inline(always)]
pub fn outcome_at(family: Family, walk: &Walk, place: usize) -> Outcome
    requires walk { (p : Setup) × IsPositionOf family p × IsWalk family.profile p walk.now }
    requires within { place < length walk.now.moves.items }
    ensures played { slice_get walk.now.moves.items place ≡ Some result.played }
    ensures outcome { (p : Setup) → IsPositionOf family p → IsWalk family.profile p walk.now
        → IsOutcome family p result.played (setup_on result.position.board) }
{
    // Only the contract speaks of the family.
    let _ = family;
    walk.outcome(place)
}

/// The number of the class to which that move leads.
pub fn class_after(classes: &Classes, walk: &Walk, place: usize) -> u64
    requires walk { (p : Setup) × IsPositionOf classes.now.family p × IsWalk classes.now.family.profile p walk.now }
    requires within { place < length walk.now.moves.items }
    ensures class { (p : Setup) → IsPositionOf classes.now.family p → IsWalk classes.now.family.profile p walk.now
        → (played : Move) × (q : Setup) × (slice_get walk.now.moves.items place ≡ Some played) × IsOutcome classes.now.family p played q
        × IsInClass classes.now.family q result }
    ensures bound { result < classes_of classes.now.family }
{
    let outcome = outcome_at(classes.family, walk, place);
    class_of(classes, &outcome.position)
}

/// The number of the position's class.
pub fn class_of(classes: &Classes, position: &PositionBoard) -> u64
    requires { IsPositionOf classes.now.family (setup_on position.now.board) }
    ensures class { IsInClass classes.now.family (setup_on position.now.board) result }
    ensures bound { result < classes_of classes.now.family }
{
    classes.class_by(&position.board)
}

/// The representative of the class of that number, which is below the number of classes.
#[inline(always)]
pub fn representative_of(classes: &Classes, class: u64) -> PositionBoard
    requires { class < classes_of classes.now.family }
    ensures setup { setup_on result.board ≡ class_setup classes.now.family class }
    ensures represents { RepresentsClass classes.now.family (setup_on result.board) class }
{
    PositionBoard::new(classes.board_at(class, Side::Mover))
}
