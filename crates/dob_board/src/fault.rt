// What the calls of a board refuse.
ghost use Rattle.std.specs.Prelude.{◌≡◌, Some};
ghost use Rattle.dob_board.specs.declared.fault.Fault.TheVariants as fault;

use dob_pieces::Memory;
use std::alloc::{AllocError, AllocFailed};
use std::error::Error;
use std::fmt;

/// Why a board isn't opened.
#[derive(Clone, Copy, Debug)]
pub enum Fault {
    /// E9: the number of nodes isn't 1 to 16.
    Nodes,
    /// E23: a growth was refused, since no memory was left for it.
    Memory,
}

impl fmt::Display for Fault {
    ghost use Rattle.dob_board.specs.Faults.{fault_text};

    ghost output = { λ given. Some (fault_text given) };

    fn fmt<W: fmt::Write>(&self, f: &mut fmt::Formatter<W>) -> fmt::Result {
        match self {
            Fault::Nodes => write!(f, "{}", dob_safra::Nodes),
            Fault::Memory => write!(f, "{Memory}"),
        }
    }
}

impl Error for Fault {}

impl From<AllocError> for Fault {
    ghost from_gives = { λ _ given. given ≡ fault.Memory };

    fn from(_lower: AllocError) -> Fault {
        Fault::Memory
    }
}

impl<T: Drop> From<AllocFailed<T>> for Fault {
    ghost from_gives = { λ _ given. given ≡ fault.Memory };

    fn from(_lower: AllocFailed<T>) -> Fault {
        Fault::Memory
    }
}

/// E22: no batch was seen posted beyond those that are taken.
#[derive(Clone, Copy, PartialEq, Eq)]
pub struct NotPosted {
    /// How many batches were seen posted.
    pub seen: u64,
}
