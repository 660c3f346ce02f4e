// Why no certificate is made.
ghost use Rattle.std.specs.Prelude.{◌≡◌, Some};
ghost use Rattle.dob_certify.specs.declared.fault.MakingFault.TheVariants as fault;

use dob_certificate::{Refusal, TooMany};
use dob_pieces::Memory;
use std::alloc::{AllocError, AllocFailed};
use std::error::Error;
use std::fmt;

/// Why no certificate is made.
#[derive(Clone, Copy, Debug)]
pub enum MakingFault {
    /// E7, E26: the position isn't one of the table's.
    Table(dob_probe::Fault),
    /// E30, E31, E23: the lists that were found don't prove what the table says of the position, as where the table isn't right.
    Unproved(Refusal),
    /// E39: a certificate would have more than N entries.
    TooMany(u64),
    /// E23: a growth was refused, since no memory was left for it.
    Memory,
}

impl fmt::Display for MakingFault {
    ghost use Rattle.dob_certify.specs.Faults.{fault_text};

    ghost output = { λ fault. Some (fault_text fault) };

    fn fmt<W: fmt::Write>(&self, f: &mut fmt::Formatter<W>) -> fmt::Result {
        match self {
            MakingFault::Table(fault) => write!(f, "{fault}"),
            MakingFault::Unproved(refusal) => write!(f, "{refusal}"),
            MakingFault::TooMany(most) => write!(f, "{}", TooMany { most: *most }),
            MakingFault::Memory => write!(f, "{Memory}"),
        }
    }
}

impl Error for MakingFault {}

impl From<dob_probe::Fault> for MakingFault {
    ghost from_gives = { λ given result. result ≡ fault.Table given };

    fn from(given: dob_probe::Fault) -> MakingFault {
        MakingFault::Table(given)
    }
}

impl From<Refusal> for MakingFault {
    ghost from_gives = { λ given result. result ≡ fault.Unproved given };

    fn from(given: Refusal) -> MakingFault {
        MakingFault::Unproved(given)
    }
}

impl From<Memory> for MakingFault {
    ghost from_gives = { λ _ result. result ≡ fault.Memory };

    fn from(_lower: Memory) -> MakingFault {
        MakingFault::Memory
    }
}

/// Why a search for a list ends before it is done.
#[derive(Clone, Copy)]
pub(crate) enum Stop {
    /// E23: no memory was left for a growth.
    Memory,
    /// E39: the list would have more entries than it may.
    Full,
}

/// A search that is full has a list, as one that is done has.
pub(crate) fn ended(searched: Result<(), Stop>) -> Result<(), Memory> {
    match searched {
        Ok(()) | Err(Stop::Full) => Ok(()),
        Err(Stop::Memory) => Err(Memory),
    }
}

impl From<Memory> for Stop {
    fn from(_lower: Memory) -> Stop {
        Stop::Memory
    }
}

impl From<AllocError> for Stop {
    fn from(_lower: AllocError) -> Stop {
        Stop::Memory
    }
}

impl<T: Drop> From<AllocFailed<T>> for Stop {
    fn from(_lower: AllocFailed<T>) -> Stop {
        Stop::Memory
    }
}
