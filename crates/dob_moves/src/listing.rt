// The list of a position's moves: the squares of sets, from the first on, which is the move order. The position's board says all that is asked.
ghost use Rattle.std.specs.Prelude.{◌≡◌, ◌+◌, ◌≤◌, ◌++◌, IfOk, length};
ghost use Rattle.dob_pieces.specs.Boards.{IsBoardOf};
ghost use Rattle.dob_pieces.specs.Masks.{AreSquares, is_empty, is_end};
ghost use Rattle.dob_pieces.specs.declared.setup.Setup.{Setup};
ghost use Rattle.dob_moves.specs.Laws.{most_moves};
ghost use Rattle.dob_moves.specs.Shown.{setup_on};
ghost use Rattle.dob_moves.specs.Statuses.{HasStatus, AreMoves};
ghost use Rattle.dob_moves.specs.Walks.{steps_by, all_steps, drops_of, all_drops};
ghost use Rattle.dob_moves.specs.declared.first_moves.Aim.TheVariants.{Elsewhere};

use crate::droppable::squares_for;
use crate::first_moves::grows_at;
use crate::game_move::Move;
use crate::position_board::PositionBoard;
use crate::position_status::Status;
use arrayvec::ArrayVec;
use dob_pieces::{Board, Hand, HandKind, Kind, Memory, Position, Profile, Square, SquareSet};
use std::alloc::Global;

/// The moves of a position, which are 63 at most (`laws::moves_are_few`): a list that takes no memory.
pub type MoveList = ArrayVec<Move, 63>;

// Appends the steps of a piece of that kind on that square that end on one of these squares.
fn push_steps_by(moves: &mut MoveList, board: &Board, ends: SquareSet, kind: Kind, from: Square)
    requires { (setup : Setup) × IsBoardOf setup board.now × AreSquares setup is_end ends
        × (length moves.old.items + length (steps_by Elsewhere setup kind from) ≤ most_moves) }
    ensures { (setup : Setup) → IsBoardOf setup board.now → AreSquares setup is_end ends
        → moves.new.items ≡ moves.old.items ++ steps_by Elsewhere setup kind from }
{
    for to in kind.targets(from).and(ends) {
        moves.push(Move::Step {
            kind,
            from,
            to,
            catch: board.enemies.has(to),
            grows: grows_at(kind, to),
        });
    }
}

// Appends the mover's steps.
fn push_steps(moves: &mut MoveList, board: &Board)
    requires { (setup : Setup) × IsBoardOf setup board.now × (length moves.old.items + length (all_steps Elsewhere setup) ≤ most_moves) }
    ensures { (setup : Setup) → IsBoardOf setup board.now → moves.new.items ≡ moves.old.items ++ all_steps Elsewhere setup }
{
    let ends = board.ends();
    for from in board.own() {
        push_steps_by(moves, board, ends, board.own_kind(from), from);
    }
}

// Appends the drops of that kind from the hand on one of these squares.
fn push_drops_of(
    moves: &mut MoveList,
    profile: Profile,
    hand: Hand,
    empty: SquareSet,
    kind: HandKind,
)
    requires { (setup : Setup) × AreSquares setup is_empty empty × (hand ≡ setup.hands.mover)
        × (length moves.old.items + length (drops_of profile setup kind) ≤ most_moves) }
    ensures { (setup : Setup) → AreSquares setup is_empty empty → hand ≡ setup.hands.mover
        → moves.new.items ≡ moves.old.items ++ drops_of profile setup kind }
{
    if hand.count(kind) == 0 {
        return;
    }
    for to in empty.and(squares_for(profile, kind)) {
        moves.push(Move::Put { kind, to });
    }
}

// Appends the drops.
fn push_drops(moves: &mut MoveList, profile: Profile, board: &Board)
    requires { (setup : Setup) × IsBoardOf setup board.now × (length moves.old.items + length (all_drops profile setup) ≤ most_moves) }
    ensures { (setup : Setup) → IsBoardOf setup board.now → moves.new.items ≡ moves.old.items ++ all_drops profile setup }
{
    let hand = board.hands.mover;
    let empty = board.empty();
    push_drops_of(moves, profile, hand, empty, HandKind::Chick);
    push_drops_of(moves, profile, hand, empty, HandKind::Elephant);
    push_drops_of(moves, profile, hand, empty, HandKind::Giraffe);
}

/// Writes the moves of the position by the rules of the profile into the list, each once, in the move order, in place of what it had, and gives the
/// position's status. No position but an open one has moves.
pub(crate) fn list_moves(profile: Profile, moves: &mut MoveList, position: &PositionBoard) -> Status
    ensures status { HasStatus profile (setup_on position.now.board) result }
    ensures moves { AreMoves profile (setup_on position.now.board) moves.new.items }
{
    moves.clear();
    match position.status(profile) {
        Status::Open => {
            push_steps(moves, &position.board);
            push_drops(moves, profile, &position.board);
            Status::Open
        }
        other => other,
    }
}

/// The position's moves by the rules of the profile, each once, in the move order; none but of an open position. Fails if memory runs out.
pub fn moves(alloc: Global, profile: Profile, position: &Position) -> Result<Vec<Move>, Memory>
    ensures { IfOk result (λ v. AreMoves profile position.now.setup v.items) }
{
    let mut moves = MoveList::new();
    let _status = list_moves(profile, &mut moves, &PositionBoard::of(position));
    Ok(Vec::from_slice(alloc, moves.as_slice())?)
}
