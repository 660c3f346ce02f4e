// The faults of this crate.
ghost use Rattle.std.specs.Prelude.{◌≡◌, Some};
ghost use Rattle.dob_distance.specs.declared.fault.ValueFault.TheVariants as fault;

use dob_pieces::Memory;
use std::alloc::{AllocError, AllocFailed};
use std::error::Error;
use std::fmt;

/// Why no value is given.
#[derive(Clone, Copy, Debug, PartialEq, Eq)]
pub enum ValueFault {
    /// E12: some position of the family is won or lost in more plies than an entry can hold.
    TooDeep,
    /// E23: a growth was refused, since no memory was left for it.
    Memory,
}

impl fmt::Display for ValueFault {
    ghost use Rattle.dob_distance.specs.Faults.{fault_text};

    ghost output = { λ fault. Some (fault_text fault) };

    fn fmt<W: fmt::Write>(&self, f: &mut fmt::Formatter<W>) -> fmt::Result {
        match self {
            ValueFault::TooDeep => write!(f, "E12 TooDeep"),
            ValueFault::Memory => write!(f, "{Memory}"),
        }
    }
}

impl Error for ValueFault {}

impl From<Memory> for ValueFault {
    ghost from_gives = { λ _ given. given ≡ fault.Memory };

    fn from(_lower: Memory) -> ValueFault {
        ValueFault::Memory
    }
}

impl From<AllocError> for ValueFault {
    ghost from_gives = { λ _ given. given ≡ fault.Memory };

    fn from(_lower: AllocError) -> ValueFault {
        ValueFault::Memory
    }
}

impl<T: Drop> From<AllocFailed<T>> for ValueFault {
    ghost from_gives = { λ _ given. given ≡ fault.Memory };

    fn from(_lower: AllocFailed<T>) -> ValueFault {
        ValueFault::Memory
    }
}
