// The profiles of the rules, and the families of positions that they make.
ghost use Rattle.std.specs.Prelude.{◌≡◌, ◌≤◌, Some, MatchOption};
ghost use Rattle.dob_pieces.specs.Profiles.{profile_number, may_stand, is_far_chick};

use crate::kind::{Kind, Piece, Side};
use crate::piece_set::PieceSet;
use crate::square::Square;
use std::error::Error;
use std::fmt;

/// A profile of the rules: whether a chick may be dropped on its far row, and so stand there.
#[derive(Clone, Copy, PartialEq, Eq)]
pub enum Profile {
    /// A chick may stand on its own far row.
    A,
    /// No chick may: not the mover's on row 4, nor the enemy's on row 1.
    B,
}

impl Profile {
    /// The profile's number, by which files and other languages name it.
    pub fn number(self) -> u8
        ensures { result ≡ profile_number self }
    {
        match self {
            Profile::A => 0,
            Profile::B => 1,
        }
    }

    /// The profile of that number, if it is one's.
    pub fn of_number(number: u8) -> Option<Profile>
        ensures { MatchOption result (2 ≤ number) (λ profile. profile_number profile ≡ number) }
    {
        match number {
            0 => Some(Profile::A),
            1 => Some(Profile::B),
            _ => None,
        }
    }

    /// Whether that may stand on the square: in `B` anything but a chick on its far row, in `A` anything.
    pub fn may_stand(self, square: Square, cell: Option<Piece>) -> bool
        ensures { result ≡ may_stand self square cell }
    {
        match self {
            Profile::A => true,
            Profile::B => !is_far_chick(square, cell),
        }
    }
}

// Whether a chick stands on its far row there.
fn is_far_chick(square: Square, cell: Option<Piece>) -> bool
    ensures { result ≡ is_far_chick square cell }
{
    match cell {
        Some(piece) => match (piece.side, piece.kind) {
            (Side::Mover, Kind::Chick) => square.row() == 3,
            (Side::Enemy, Kind::Chick) => square.row() == 0,
            _ => false,
        },
        None => false,
    }
}

/// The positions of a piece set by a profile of the rules.
#[derive(Clone, Copy, PartialEq, Eq)]
pub struct Family {
    pub set: PieceSet,
    pub profile: Profile,
}

/// E26: a chick stands on its own far row, which in profile B is no position.
#[derive(Clone, Copy, Debug)]
pub struct FarChick;

impl fmt::Display for FarChick {
    ghost use Rattle.dob_pieces.specs.Faults.{far_chick_text};

    ghost output = { λ _. Some far_chick_text };

    fn fmt<W: fmt::Write>(&self, f: &mut fmt::Formatter<W>) -> fmt::Result {
        write!(f, "E26 FarChick")
    }
}

impl Error for FarChick {}
