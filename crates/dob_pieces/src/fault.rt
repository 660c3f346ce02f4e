// Why a board and hands are no position.
ghost use Rattle.std.specs.Prelude.{Some};
ghost use Rattle.dob_pieces.specs.Faults.{fault_text};

use std::error::Error;
use std::fmt;

/// The first test of a position that fails, in the order of their numbers.
#[derive(Clone, Copy, Debug, PartialEq, Eq)]
pub enum PositionFault {
    /// E4: a side doesn't have exactly one lion.
    Lions,
    /// E5: there are more than two pieces of a kind, board and hands together, hens counted as chicks.
    Count,
    /// E6: the mover's lion stands on row 4.
    FarLion,
}

impl fmt::Display for PositionFault {
    ghost output = { λ fault. Some (fault_text fault) };

    fn fmt<W: fmt::Write>(&self, f: &mut fmt::Formatter<W>) -> fmt::Result {
        let fault = *self;
        match fault {
            PositionFault::Lions => write!(f, "E4 Lions"),
            PositionFault::Count => write!(f, "E5 Count"),
            PositionFault::FarLion => write!(f, "E6 FarLion"),
        }
    }
}

impl Error for PositionFault {}
