// Why a world or a build by threads gives nothing.
ghost use Rattle.std.specs.Prelude.{◌≡◌, Some};
ghost use Rattle.dob_share.specs.declared.build_fault.BuildFault.TheVariants as fault;

use crate::cause::{Cause, Stopped};
use dob_pieces::Memory;
use std::error::Error;
use std::fmt;

/// Why a world or a build by threads isn't begun, or gives nothing.
#[derive(Clone, Copy, Debug, PartialEq, Eq)]
pub enum BuildFault {
    /// E9: the number of nodes isn't 1 to 16.
    Nodes,
    /// E10: the greatest size of a batch isn't 1 to 4096, or the capacity of a link or an inbox isn't 1 to 1024.
    Sizes,
    /// E14: a node of the world or of the build has stopped.
    Stopped { node: usize, cause: Cause },
    /// E23: a growth was refused, since no memory was left for it.
    Memory,
}

impl fmt::Display for BuildFault {
    ghost use Rattle.dob_share.specs.BuildFaults.{fault_text};

    ghost output = { λ given. Some (fault_text given) };

    fn fmt<W: fmt::Write>(&self, f: &mut fmt::Formatter<W>) -> fmt::Result {
        match self {
            BuildFault::Nodes => write!(f, "{}", dob_safra::Nodes),
            BuildFault::Sizes => write!(f, "E10 Sizes"),
            BuildFault::Stopped { node, cause } => write!(f, "{}", Stopped(*node, *cause)),
            BuildFault::Memory => write!(f, "{Memory}"),
        }
    }
}

impl Error for BuildFault {}

impl From<Memory> for BuildFault {
    ghost from_gives = { λ _ given. given ≡ fault.Memory };

    fn from(_lower: Memory) -> BuildFault {
        BuildFault::Memory
    }
}
