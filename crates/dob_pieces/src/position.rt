// Positions, which are legal by their type.
ghost use Rattle.std.specs.Prelude.{◌≡◌, ◌↔◌, IsOk, IfOk, IsErrOf, IsTrue};
ghost use Rattle.dob_pieces.specs.Profiles.{IsAllowed};
ghost use Rattle.dob_pieces.specs.Setups.{IsLegal, HasLions, HasFewPieces, HasLionOffFarRow, total, setup_of, turned, mirrored};

use crate::fault::PositionFault;
use crate::hand::Hands;
use crate::kind::{HandKind, Piece};
use crate::piece_set::PieceSet;
use crate::profile::Profile;
use crate::setup::Setup;
use crate::square::Square;

/// A position, seen from the side to move. It is legal: each side has one lion, no kind has more than two
/// pieces (hens count as chicks, board and hands together), and the mover's lion isn't on row 4.
#[derive(Clone, Copy, PartialEq, Eq)]
pub struct Position {
    pub setup: Setup,
    pub ghost legal: { IsLegal setup },
}

impl Position {
    /// The position of a legal setup. It tests nothing when it runs.
    pub const fn new(setup: Setup) -> Position
        requires { IsLegal setup }
        ensures { result.setup ≡ setup }
    {
        Position { setup }
    }

    /// The position with that board and those hands. Refuses, in this order, `Lions` if a side doesn't have
    /// exactly one lion, `Count` if there are more than two pieces of a kind, and `FarLion` if the mover's lion
    /// stands on row 4.
    pub fn of(
        board: [Option<Piece>; Square::COUNT],
        hands: Hands,
    ) -> Result<Position, PositionFault>
        ensures legal { IsOk result ↔ IsLegal (setup_of board hands) }
        ensures setup { IfOk result (λ position. position.setup ≡ setup_of board hands) }
        ensures lions { IsErrOf result PositionFault.Lions ↔ (¬ HasLions (setup_of board hands)) }
        ensures count { IsErrOf result PositionFault.Count ↔ (HasLions (setup_of board hands) × ¬ HasFewPieces (setup_of board hands)) }
        ensures far_lion { IsErrOf result PositionFault.FarLion
            ↔ (HasLions (setup_of board hands) × HasFewPieces (setup_of board hands) × ¬ HasLionOffFarRow (setup_of board hands)) }
    {
        let setup = Setup { board, hands };
        match setup.fault() {
            None => Ok(Position::new(setup)),
            Some(fault) => Err(fault),
        }
    }

    /// How many chicks, elephants and giraffes there are, board and hands together. Hens count as chicks.
    pub fn piece_set(&self) -> PieceSet
        ensures chicks { result.chicks ≡ total HandKind.Chick self.now.setup }
        ensures elephants { result.elephants ≡ total HandKind.Elephant self.now.setup }
        ensures giraffes { result.giraffes ≡ total HandKind.Giraffe self.now.setup }
    {
        PieceSet {
            chicks: self.setup.total(HandKind::Chick) as u8,
            elephants: self.setup.total(HandKind::Elephant) as u8,
            giraffes: self.setup.total(HandKind::Giraffe) as u8,
        }
    }

    /// Whether it is a position of that profile: in `B` no chick stands on its far row, in `A` each is one.
    pub fn is_allowed(&self, profile: Profile) -> bool
        ensures { IsTrue result ↔ IsAllowed profile self.now.setup }
    {
        self.setup.is_allowed(profile)
    }

    /// The position seen from the other side, which may be no position.
    pub fn turned(&self) -> Setup
        ensures { result ≡ turned self.now.setup }
    {
        self.setup.turned()
    }

    /// The mirror image: columns a and c exchanged.
    pub fn mirrored(&self) -> Position
        ensures { result.setup ≡ mirrored self.now.setup }
    {
        Position::new(self.setup.mirrored())
    }
}
