// Why a build of one node gives no table.
ghost use Rattle.std.specs.Prelude.{◌≡◌, Some};
ghost use Rattle.dob_reference.specs.declared.fault.Fault.TheVariants as fault;

use dob_pieces::Memory;
use std::alloc::AllocFailed;
use std::error::Error;
use std::fmt;

/// Why one node alone gives no table.
#[derive(Clone, Copy, Debug)]
pub enum Fault {
    /// E12: the value of a class would have a distance above the greatest that is kept.
    TooDeep,
    /// E13: an item to the class of that number doesn't fit its cell.
    Contradiction(u64),
    /// E23: a growth was refused, since no memory was left for it.
    Memory,
}

impl fmt::Display for Fault {
    ghost use Rattle.dob_reference.specs.Faults.{fault_text};

    ghost output = { λ fault. Some (fault_text fault) };

    fn fmt<W: fmt::Write>(&self, f: &mut fmt::Formatter<W>) -> fmt::Result {
        match self {
            Fault::TooDeep => write!(f, "{}", dob_share::Fault::TooDeep),
            Fault::Contradiction(class) => write!(f, "{}", dob_share::Fault::Contradiction(*class)),
            Fault::Memory => write!(f, "{Memory}"),
        }
    }
}

impl Error for Fault {}

impl From<Memory> for Fault {
    ghost from_gives = { λ _ given. given ≡ fault.Memory };

    fn from(_lower: Memory) -> Fault {
        Fault::Memory
    }
}

impl<T: Drop> From<AllocFailed<T>> for Fault {
    ghost from_gives = { λ _ given. given ≡ fault.Memory };

    fn from(_lower: AllocFailed<T>) -> Fault {
        Fault::Memory
    }
}
