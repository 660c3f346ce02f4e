// The number of a position's moves, counted without a list of them, by the position's board alone.
ghost use Rattle.std.specs.Prelude.{◌≡◌, ◌↔◌, ◌≤◌, ◌*◌, IsTrue, length};
ghost use Rattle.dob_pieces.specs.declared.profile.Profile.TheVariants.{A};
ghost use Rattle.dob_pieces.specs.Boards.{IsBoardOf};
ghost use Rattle.dob_pieces.specs.Masks.{AreSquares, is_empty, is_end};
ghost use Rattle.dob_pieces.specs.declared.setup.Setup.{Setup};
ghost use Rattle.dob_moves.specs.Moves.{CanGo};
ghost use Rattle.dob_moves.specs.Walks.{steps_by, all_steps, drops_of, all_drops};
ghost use Rattle.dob_moves.specs.MoveLists.{moves_of};
ghost use Rattle.dob_moves.specs.Laws.{most_moves};
ghost use Rattle.dob_moves.specs.Shown.{setup_on};
ghost use Rattle.dob_moves.specs.Statuses.{HasStatus};
ghost use Rattle.dob_moves.specs.declared.first_moves.Aim.TheVariants.{Elsewhere};
ghost use Rattle.dob_moves.specs.declared.game_move.Move.{Move as Moved};

use crate::droppable::squares_for;
use crate::position_board::PositionBoard;
use crate::position_status::Status;
use dob_pieces::{Board, Hand, HandKind, Kind, Profile, Square, SquareSet};

// The number of steps of a piece of that kind on that square that end on one of these squares.
fn count_steps_by(ends: SquareSet, kind: Kind, from: Square) -> u8
    ensures number { (setup : Setup) → AreSquares setup is_end ends → result ≡ length (steps_by Elsewhere setup kind from) }
    ensures few { result ≤ 12 }
{
    kind.targets(from).and(ends).count()
}

// The number of the mover's steps.
fn count_steps(board: &Board) -> u8
    requires { (setup : Setup) × IsBoardOf setup board.now }
    ensures number { (setup : Setup) → IsBoardOf setup board.now → result ≡ length (all_steps Elsewhere setup) }
    ensures few { result ≤ 12 * 12 }
{
    let ends = board.ends();
    let mut count = 0;
    for from in board.own() {
        count += count_steps_by(ends, board.own_kind(from), from);
    }
    count
}

// The number of drops of that kind from the hand on one of these squares.
fn count_drops_of(profile: Profile, hand: Hand, empty: SquareSet, kind: HandKind) -> u8
    ensures number { (setup : Setup) → AreSquares setup is_empty empty → hand ≡ setup.hands.mover → result ≡ length (drops_of profile setup kind) }
    ensures few { result ≤ 12 }
{
    if hand.count(kind) == 0 {
        return 0;
    }
    empty.and(squares_for(profile, kind)).count()
}

// How many drops the mover has, by the profile.
fn count_drops(profile: Profile, board: &Board) -> u8
    ensures number { (setup : Setup) → IsBoardOf setup board.now → result ≡ length (all_drops profile setup) }
    ensures few { result ≤ 36 }
{
    let hand = board.hands.mover;
    let empty = board.empty();
    count_drops_of(profile, hand, empty, HandKind::Chick)
        + count_drops_of(profile, hand, empty, HandKind::Elephant)
        + count_drops_of(profile, hand, empty, HandKind::Giraffe)
}

/// Whether the mover of the position has a step, other than onto the enemy lion, or a drop.
pub(crate) fn has_move(position: &PositionBoard) -> bool
    ensures { IsTrue result ↔ ((move : Moved) × CanGo A (setup_on position.now.board) move) }
{
    count_steps(&position.board) + count_drops(Profile::A, &position.board) != 0
}

// The number of moves of the position, which has that status.
fn count_at(profile: Profile, position: &PositionBoard, status: Status) -> u8
    requires { HasStatus profile (setup_on position.now.board) status }
    ensures { result ≡ length (moves_of profile (setup_on position.now.board)) }
{
    match status {
        Status::Open => { count_steps(&position.board) + count_drops(profile, &position.board) }
        _ => 0,
    }
}

impl PositionBoard {
    /// The status, and the number of moves by the rules of the profile, as many as a walk lists: 0 where it isn't open, and 63 at most.
    #[inline(always)]
    pub fn status_and_count(&self, profile: Profile) -> (Status, u8)
        ensures status { HasStatus profile (setup_on self.now.board) result.0 }
        ensures count { result.1 ≡ length (moves_of profile (setup_on self.now.board)) }
        ensures few { result.1 ≤ most_moves }
    {
        let status = self.status(profile);
        (status, count_at(profile, self, status))
    }
}
