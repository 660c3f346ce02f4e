// What stood before a move as a board, with no list of cells. The square where the move ended is cleared, a piece that was
// caught there comes back, and the piece that stepped stands where it came from.
ghost use Rattle.std.specs.Prelude.{◌≡◌, ◌<◌, length, None};
ghost use Rattle.dob_pieces.specs.declared.setup.Setup.{Setup};
ghost use Rattle.dob_pieces.specs.Setups.{at, held, HasFewPieces};
ghost use Rattle.dob_pieces.specs.Boards.{IsBoardOf};
ghost use Rattle.dob_unmove.specs.declared.undo.RetroMove.{RetroMove};
ghost use Rattle.dob_pieces.specs.Changes.{IsWith};
ghost use Rattle.dob_unmove.specs.Undoes.{CanUndo, earlier, enemy_cell};

use crate::earlier::without_caught;
use crate::undo::RetroMove;
use dob_pieces::{Board, HandKind, Hands, Kind, Square};

/// What stood and lay where before the move, by the sets of what stands after it.
pub(crate) fn bits_before(board: Board, undo: RetroMove) -> Board
    requires { (after : Setup) × CanUndo after undo × (length after.board ≡ 12) × HasFewPieces after × IsBoardOf after board }
    ensures { (after : Setup) → CanUndo after undo → length after.board ≡ 12 → IsBoardOf after board → IsBoardOf (earlier after undo) result }
{
    match undo {
        RetroMove::Unstep {
            kind,
            from,
            to,
            caught,
        } => bits_before_step(board, kind, from, to, caught),
        RetroMove::Unput { kind, to } => bits_before_put(board, kind, to),
    }
}

// The sets of squares before a step.
fn bits_before_step(
    board: Board,
    kind: Kind,
    from: Square,
    to: Square,
    caught: Option<Kind>,
) -> Board
    requires { (after : Setup) × CanUndo after (RetroMove.Unstep kind from to caught) × (length after.board ≡ 12) × IsBoardOf after board }
    ensures { (after : Setup) → CanUndo after (RetroMove.Unstep kind from to caught) → length after.board ≡ 12 → IsBoardOf after board
        → IsBoardOf (earlier after (RetroMove.Unstep kind from to caught)) result }
{
    let hands = Hands {
        mover: without_caught(board.hands.mover, caught),
        enemy: board.hands.enemy,
    };
    let given_back = with_caught(board.without(to), to, caught);
    Board {
        hands,
        ..given_back.with_own(from, kind)
    }
}

// The sets of squares before a drop.
fn bits_before_put(board: Board, kind: HandKind, to: Square) -> Board
    requires { held board.hands.mover kind < 255 }
    ensures { (after : Setup) → CanUndo after (RetroMove.Unput kind to) → length after.board ≡ 12 → IsBoardOf after board
        → IsBoardOf (earlier after (RetroMove.Unput kind to)) result }
{
    let hands = Hands {
        mover: board.hands.mover.with_one_more(kind),
        enemy: board.hands.enemy,
    };
    Board {
        hands,
        ..board.without(to)
    }
}

// The sets with an enemy piece of that kind, if there is one, on an empty square.
fn with_caught(board: Board, square: Square, caught: Option<Kind>) -> Board
    ensures { (before after : Setup) → at before square ≡ None → IsWith before after square (enemy_cell caught) → IsBoardOf before board
        → IsBoardOf after result }
{
    match caught {
        None => board,
        Some(kind) => board.with_enemy(square, kind),
    }
}
