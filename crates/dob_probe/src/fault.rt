// The faults of this crate.
ghost use Rattle.std.specs.Prelude.{◌≡◌, Some};
ghost use Rattle.dob_probe.specs.declared.fault.Fault.TheVariants as fault;

use dob_pieces::{FarChick, Memory};
use std::error::Error;
use std::fmt;

/// Why a table says nothing of a position, gives no line, or isn't passed.
#[derive(Clone, Copy, Debug, PartialEq, Eq)]
pub enum Fault {
    /// E26: a chick stands on its own far row, which the table's profile doesn't allow. It is tested before E7.
    FarChick,
    /// E7: the position's pieces aren't those of the table's set.
    OtherSet,
    /// E21: what the table says of the class of this number doesn't go with what it says of others.
    Inconsistent(u64),
    /// E23: a growth was refused, since no memory was left for it.
    Memory,
}

impl fmt::Display for Fault {
    ghost use Rattle.dob_probe.specs.Faults.{fault_text};

    ghost output = { λ fault. Some (fault_text fault) };

    fn fmt<W: fmt::Write>(&self, f: &mut fmt::Formatter<W>) -> fmt::Result {
        match self {
            Fault::FarChick => write!(f, "{FarChick}"),
            Fault::OtherSet => write!(f, "E7 OtherSet"),
            Fault::Inconsistent(class) => write!(f, "E21 Inconsistent class {class}"),
            Fault::Memory => write!(f, "{Memory}"),
        }
    }
}

impl Error for Fault {}

impl From<Memory> for Fault {
    ghost from_gives = { λ _ given. given ≡ fault.Memory };

    fn from(_lower: Memory) -> Fault {
        Fault::Memory
    }
}
