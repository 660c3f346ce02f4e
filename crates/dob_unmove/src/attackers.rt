// The mover's pieces that attack the enemy lion. Where one did before a move, the position was no open one: the lion could
// have been caught. So most ways to take a move back are known from the attackers that stand there now, without the setup
// that was before.
ghost use Rattle.std.specs.Prelude.{◌≡◌, ℕ};
ghost use Rattle.dob_pieces.specs.declared.setup.Setup.{Setup};
ghost use Rattle.dob_pieces.specs.Boards.{IsBoardOf};
ghost use Rattle.dob_pieces.specs.Masks.{IsMask, attacks};
ghost use Rattle.dob_pieces.specs.Setups.{IsLegal};
ghost use Rattle.dob_unmove.specs.Classes.{IsSeenTurned};
ghost use Rattle.dob_unmove.specs.Threats.{elsewhere, stood_before, AreAttackers, IsThreat};

use crate::undo::RetroMove;
use dob_pieces::{Board, Square, SquareSet};

/// From which squares a square is attacked.
#[derive(Clone, Copy)]
pub(crate) enum Attackers {
    Nobody,
    One(Square),
    Several,
}

/// The enemy lion's square, and who attacks it.
#[derive(Clone, Copy)]
pub struct Threat {
    pub(crate) lion: Square,
    pub(crate) attackers: Attackers,
}

impl Attackers {
    // Whether there is one on another square.
    fn elsewhere(self, square: Square) -> bool
        ensures { result ≡ elsewhere self square }
    {
        match self {
            Attackers::Nobody => false,
            Attackers::One(attacker) => attacker.index() != square.index(),
            Attackers::Several => true,
        }
    }
}

// Who attacks the square, by the squares from which it is attacked.
fn attackers_in(attackers: SquareSet) -> Attackers
    ensures { (setup : Setup) (target : ℕ) → IsMask (λ from. attacks setup from target) attackers → AreAttackers setup target 12 result }
{
    match attackers.first() {
        None => Attackers::Nobody,
        Some(first) => {
            if attackers.without(first).is_empty() {
                Attackers::One(first)
            } else {
                Attackers::Several
            }
        }
    }
}

impl Threat {
    /// Where the enemy lion stands, and who attacks it, after a move and before the board is turned.
    pub fn of(board: &Board) -> Threat
        requires { (after : Setup) × IsSeenTurned IsLegal after × IsBoardOf after board.now }
        ensures { (after : Setup) → IsSeenTurned IsLegal after → IsBoardOf after board.now → IsThreat after result }
    {
        let lion = board.enemy_lion_square();
        Threat {
            lion,
            attackers: attackers_in(board.attackers(lion)),
        }
    }

    /// Whether a piece attacked the enemy lion before the move, so that it could have been caught: one that didn't move,
    /// or the one that did, from where it stood.
    pub fn stood_before(&self, undo: &RetroMove) -> bool
        ensures { result ≡ stood_before self.now undo.now }
    {
        match *undo {
            RetroMove::Unstep { kind, from, to, .. } => {
                kind.leads(from, self.lion) || self.attackers.elsewhere(to)
            }
            RetroMove::Unput { to, .. } => self.attackers.elsewhere(to),
        }
    }
}
