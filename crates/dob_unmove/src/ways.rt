// What a board shows of the ways to take a move back: where it may have ended, and from where a piece may have come, so that what
// stood before was an open position. All other ways are skipped.
ghost use Rattle.std.specs.Prelude.{◌≡◌, not, IsTrue};
ghost use Rattle.dob_pieces.specs.Masks.{IsMask};
ghost use Rattle.dob_pieces.specs.Setups.{mirrored, HasLions, IsLegal};
ghost use Rattle.dob_pieces.specs.declared.setup.Setup.{Setup};
ghost use Rattle.dob_pieces.specs.Boards.{IsBoardOf};
ghost use Rattle.dob_unmove.specs.Classes.{IsSeenTurned};
ghost use Rattle.dob_unmove.specs.Threats.{elsewhere};
ghost use Rattle.dob_unmove.specs.Ways.{is_home, comes_home, may_come, AreWays};
ghost use Rattle.dob_unmove.specs.Walks.{holds_caught};

use crate::attackers::{Attackers, Threat};
use crate::earlier::holds_caught;
use dob_pieces::{Board, Kind, Square, SquareSet};

/// What the board after a move shows, in which the side that made it is the mover.
#[derive(Clone, Copy)]
pub(crate) struct Ways {
    pub(crate) board: Board,
    pub(crate) threat: Threat,
    /// The empty squares.
    pub(crate) empty: SquareSet,
    /// Where the move may have ended.
    pub(crate) ends: SquareSet,
}

// Where the mover's lion may have stood: off row 4.
fn homes() -> SquareSet
    ensures { IsMask is_home result }
{
    SquareSet::ALL.but_not(SquareSet::FAR_ROW)
}

// Where a move may have ended if no piece that didn't move attacks the enemy lion.
fn calm_ends(attackers: Attackers) -> SquareSet
    ensures { IsMask (λ square. not (elsewhere attackers square)) result }
{
    match attackers {
        Attackers::Nobody => SquareSet::ALL,
        Attackers::One(attacker) => SquareSet::of(attacker),
        Attackers::Several => SquareSet::EMPTY,
    }
}

// Where a piece of that kind may have stood as far as the row says: the lion off row 4, and any other everywhere.
fn homes_for(kind: Kind) -> SquareSet
    ensures { IsMask (comes_home kind) result }
{
    match kind {
        Kind::Lion => homes(),
        _ => SquareSet::ALL,
    }
}

impl Ways {
    /// What is known of the ways that lead there.
    pub(crate) fn of(board: Board) -> Ways
        requires { (after : Setup) × IsSeenTurned IsLegal after × IsBoardOf after board }
        ensures { (after : Setup) → IsSeenTurned IsLegal after → IsBoardOf after board → AreWays after result }
    {
        let threat = Threat::of(&board);
        let calm = board.own().and(calm_ends(threat.attackers));
        let moved = calm.and(board.own_lion);
        let ends = if board.own_lion.and(homes()).is_empty() {
            moved
        } else {
            calm
        };
        Ways {
            board,
            threat,
            empty: board.empty(),
            ends,
        }
    }

    /// From where a piece of that kind may have come to the square.
    pub(crate) fn sources(&self, kind: Kind, to: Square) -> SquareSet
        ensures { (after : Setup) → AreWays after self.now → IsMask (may_come after self.now.threat.lion kind to) result }
    {
        kind.sources(to)
            .and(self.empty)
            .but_not(kind.sources(self.threat.lion))
            .and(homes_for(kind))
    }

    /// Whether the mover holds what a caught piece of that kind became.
    pub(crate) fn holds_caught(&self, caught: Kind) -> bool
        ensures { (after : Setup) → AreWays after self.now → result ≡ holds_caught after.hands.mover caught }
    {
        holds_caught(&self.board.hands.mover, caught)
    }
}

/// Whether both lions stand on column b, as they do where the setup is its own mirror image.
pub(crate) fn has_lions_on_b(board: &Board) -> bool
    ensures { (setup : Setup) → HasLions setup → IsBoardOf setup board.now → mirrored setup ≡ setup → IsTrue result }
{
    let lions = board.own_lion.or(board.enemy_lion);
    lions.but_not(SquareSet::COLUMN_B).is_empty()
}
