// The faults of a text that is no position's.
ghost use Rattle.std.specs.Prelude.{Some};
ghost use Rattle.dob_text.specs.Faults.{fault_text};

use dob_pieces::{FarChick, PositionFault};
use std::error::Error;
use std::fmt;

/// Why a text isn't a position's, in the order in which the faults are tested.
#[derive(Clone, Copy, Debug, PartialEq, Eq)]
pub enum TextFault {
    /// E1: the text isn't ASCII of fifteen bytes with slashes at 3, 7 and 11, a space, a word, a space and a word.
    Shape,
    /// E2: a byte of the board is none of `.LGECHlgech`.
    Letter,
    /// E3: a hand is neither `-` nor letters C, E and G in this order, in the case of its side.
    Hand,
    /// E4: a side hasn't one lion.
    Lions,
    /// E5: a kind has more than two pieces, board and hands together, hens with the chicks.
    Count,
    /// E6: the lion of the side to move stands on its far row.
    FarLion,
    /// E26: a chick stands on its own far row, which profile B doesn't allow.
    FarChick,
}

impl fmt::Display for TextFault {
    ghost output = { λ fault. Some (fault_text fault) };

    fn fmt<W: fmt::Write>(&self, f: &mut fmt::Formatter<W>) -> fmt::Result {
        match self {
            TextFault::Shape => write!(f, "E1 Shape"),
            TextFault::Letter => write!(f, "E2 Letter"),
            TextFault::Hand => write!(f, "E3 Hand"),
            TextFault::Lions => write!(f, "{}", PositionFault::Lions),
            TextFault::Count => write!(f, "{}", PositionFault::Count),
            TextFault::FarLion => write!(f, "{}", PositionFault::FarLion),
            TextFault::FarChick => write!(f, "{FarChick}"),
        }
    }
}

impl Error for TextFault {}
