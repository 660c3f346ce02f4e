// What stands on the board and lies in the hands, a position or not.
ghost use Rattle.std.specs.Prelude.{◌≡◌, ◌↔◌, IsTrue, count_by};
ghost use Rattle.std.specs.List.{list_any};
ghost use Rattle.dob_pieces.specs.Faults.{HasPositionFault};
ghost use Rattle.dob_pieces.specs.Profiles.{IsAllowed};
ghost use Rattle.dob_pieces.specs.Setups.{at, turned_cell, turned, mirrored, holds_lion, holds_kind, total, HasLions, HasFewPieces, HasLionOffFarRow, IsLegal};

use crate::fault::PositionFault;
use crate::hand::Hands;
use crate::kind::{HandKind, Kind, Piece, Side};
use crate::profile::Profile;
use crate::square::Square;

/// What stands on each square, from a1 to c4, and what lies in the hands, seen from the side to move. It need
/// not be a position: a turned position may be none.
#[derive(Clone, Copy, PartialEq, Eq)]
pub struct Setup {
    pub board: [Option<Piece>; Square::COUNT],
    pub hands: Hands,
}

impl Setup {
    /// What stands on the square.
    pub fn at(&self, square: Square) -> Option<Piece>
        ensures { result ≡ at self.now square }
    {
        self.board[square.index()]
    }

    /// The setup seen from the other side: the board by a half turn, the sides and the hands exchanged.
    pub fn turned(&self) -> Setup
        ensures { result ≡ turned self.now }
    {
        let mut board = [None; Square::COUNT];
        for index in 0..Square::COUNT {
            board[index] = turned_cell(self.at(Square::new(index).turned()));
        }
        Setup {
            board,
            hands: Hands {
                mover: self.hands.enemy,
                enemy: self.hands.mover,
            },
        }
    }

    /// The mirror image: columns a and c exchanged.
    pub fn mirrored(&self) -> Setup
        ensures { result ≡ mirrored self.now }
    {
        let mut board = [None; Square::COUNT];
        for index in 0..Square::COUNT {
            board[index] = self.at(Square::new(index).mirrored());
        }
        Setup {
            board,
            hands: self.hands,
        }
    }

    /// Whether it is a position: each side has one lion, no kind has more than two pieces, and the mover's lion
    /// isn't on row 4.
    pub fn is_legal(&self) -> bool
        ensures { IsTrue result ↔ IsLegal self.now }
    {
        self.fault().is_none()
    }

    // Why it is no position, the first fault in the order of their numbers. `None` for a position.
    pub(crate) fn fault(&self) -> Option<PositionFault>
        ensures { HasPositionFault self.now result }
    {
        if !self.has_lions() {
            Some(PositionFault::Lions)
        } else if !self.has_few_pieces() {
            Some(PositionFault::Count)
        } else if !self.has_lion_off_far_row() {
            Some(PositionFault::FarLion)
        } else {
            None
        }
    }

    // Whether each side has one lion.
    fn has_lions(&self) -> bool
        ensures { IsTrue result ↔ HasLions self.now }
    {
        self.lions(Side::Mover) == 1 && self.lions(Side::Enemy) == 1
    }

    // Whether no kind has more than two pieces.
    fn has_few_pieces(&self) -> bool
        ensures { IsTrue result ↔ HasFewPieces self.now }
    {
        self.total(HandKind::Chick) <= 2
            && self.total(HandKind::Elephant) <= 2
            && self.total(HandKind::Giraffe) <= 2
    }

    /// Whether the mover's lion isn't on row 4.
    pub fn has_lion_off_far_row(&self) -> bool
        ensures { IsTrue result ↔ HasLionOffFarRow self.now }
    {
        !has_mover_lion(&self.board[Square::FIRST_OF_FAR_ROW..])
    }

    /// Whether the profile allows it: in `B` no chick stands on its far row, in `A` anything is allowed.
    pub fn is_allowed(&self, profile: Profile) -> bool
        ensures { IsTrue result ↔ IsAllowed profile self.now }
    {
        for index in 0..Square::COUNT {
            let square = Square::new(index);
            if !profile.may_stand(square, self.at(square)) {
                return false;
            }
        }
        true
    }

    // How many lions of the side stand on the board.
    fn lions(&self, side: Side) -> usize
        ensures { result ≡ count_by (holds_lion side) self.now.board }
    {
        self.board
            .iter()
            .filter(|cell| holds_lion(side, **cell))
            .count()
    }

    /// How many pieces of the kind there are, board and hands together. A hen counts as a chick.
    #[tactic(auto, unfolding(crate::specs::Setups::total))]
    pub fn total(&self, kind: HandKind) -> usize
        ensures { result ≡ total kind self.now }
    {
        let on_board = self
            .board
            .iter()
            .filter(|cell| holds_kind(kind, **cell))
            .count();
        on_board
            + usize::from(self.hands.mover.count(kind))
            + usize::from(self.hands.enemy.count(kind))
    }
}

// What stands on a square, seen from the other side.
fn turned_cell(cell: Option<Piece>) -> Option<Piece>
    ensures { result ≡ turned_cell cell }
{
    cell.map(|piece| piece.turned())
}

// Whether the mover's lion stands on one of the squares.
fn has_mover_lion(cells: &[Option<Piece>]) -> bool
    ensures { result ≡ list_any (holds_lion Side.Mover) cells.now }
{
    cells.iter().any(|cell| holds_lion(Side::Mover, *cell))
}

// Whether a lion of the side stands on the square.
fn holds_lion(side: Side, cell: Option<Piece>) -> bool
    ensures { result ≡ holds_lion side cell }
{
    match cell {
        None => false,
        Some(piece) => piece.side == side && piece.kind == Kind::Lion,
    }
}

// Whether a piece that counts as that kind stands on the square.
fn holds_kind(kind: HandKind, cell: Option<Piece>) -> bool
    ensures { result ≡ holds_kind kind cell }
{
    match cell {
        None => false,
        Some(piece) => piece.kind.in_hand() == Some(kind),
    }
}
