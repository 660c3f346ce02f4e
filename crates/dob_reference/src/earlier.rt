// The position before a move.
ghost use Rattle.std.specs.Prelude.{◌≡◌, MatchOption};
ghost use Rattle.dob_pieces.specs.declared.profile.Profile.TheVariants.{A};
ghost use Rattle.dob_pieces.specs.Setups.{HasFewPieces};
ghost use Rattle.dob_moves.specs.Statuses.{HasStatus};
ghost use Rattle.dob_rank.specs.Families.{IsPositionOf};
ghost use Rattle.dob_moves.specs.declared.position_status.Status.TheVariants.{Open};
ghost use Rattle.dob_unmove.specs.Undoes.{CanGiveBack, CanUndo, earlier};
ghost use Rattle.dob_unmove.specs.Unmoves.{IsOpenPosition};
ghost use Rattle.dob_unmove.specs.Classes.{IsSeenTurned};
ghost use Rattle.dob_unmove.specs.Threats.{IsThreat};

use dob_pieces::{Family, HandKind, Hands, Kind, Piece, Position, Setup, Side, Square};
use dob_unmove::{RetroMove, Threat, enemy_cell, may_give_back, without_caught};

/// The position of the family before the move, where one stood that was open. In `after` the side that made the move is still the mover; seen from
/// the other side it is a position. Taking a move back keeps the lions and the other pieces, so only the mover's lion on row 4 is left to be tested.
pub(crate) fn position_before(
    family: Family,
    after: &Setup,
    threat: &Threat,
    undo: RetroMove,
) -> Option<Position>
    requires can { CanUndo after.now undo }
    requires of_set { IsSeenTurned (IsPositionOf family) after.now }
    requires threat { IsThreat after.now threat.now }
    ensures { MatchOption result (IsPositionOf family (earlier after.now undo) → ¬ IsOpenPosition (earlier after.now undo))
        (λ p. (p.setup ≡ earlier after.now undo) × HasStatus A p.setup Open × IsPositionOf family p.setup) }
{
    if threat.stood_before(&undo) {
        return None;
    }
    if !may_give_back(family.profile, &undo) {
        return None;
    }
    let setup = earlier(after, undo);
    if setup.has_lion_off_far_row() {
        Some(Position::new(setup))
    } else {
        None
    }
}

// What stood and lay where before the move.
fn earlier(after: &Setup, undo: RetroMove) -> Setup
    requires can { CanUndo after.now undo }
    requires few { HasFewPieces after.now }
    ensures { result ≡ earlier after.now undo }
{
    match undo {
        RetroMove::Unstep {
            kind,
            from,
            to,
            caught,
        } => before_step(after, kind, from, to, caught),
        RetroMove::Unput { kind, to } => before_put(after, kind, to),
    }
}

// What stood and lay where before a step.
#[tactic(auto, unfolding(dob_unmove::specs::Undoes::earlier))]
fn before_step(after: &Setup, kind: Kind, from: Square, to: Square, caught: Option<Kind>) -> Setup
    requires { CanGiveBack after.now.hands.mover caught }
    ensures { result ≡ earlier after.now (RetroMove.Unstep kind from to caught) }
{
    let mut board = after.board;
    board[to.index()] = enemy_cell(caught);
    board[from.index()] = Some(Piece {
        side: Side::Mover,
        kind,
    });
    let mover = without_caught(after.hands.mover, caught);
    Setup {
        board,
        hands: Hands {
            mover,
            enemy: after.hands.enemy,
        },
    }
}

// What stood and lay where before a drop.
#[tactic(auto, using(dob_unmove::proofs::Undone::few_held), unfolding(dob_unmove::specs::Undoes::earlier))]
fn before_put(after: &Setup, kind: HandKind, to: Square) -> Setup
    requires { HasFewPieces after.now }
    ensures { result ≡ earlier after.now (RetroMove.Unput kind to) }
{
    let mut board = after.board;
    board[to.index()] = None;
    let mover = after.hands.mover.with_one_more(kind);
    Setup {
        board,
        hands: Hands {
            mover,
            enemy: after.hands.enemy,
        },
    }
}
