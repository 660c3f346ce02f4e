// Why a node stops.
ghost use Rattle.std.specs.Prelude.{◌≡◌, Some};
ghost use Rattle.dob_share.specs.declared.cause.Cause.TheVariants as cause;
ghost use Rattle.dob_share.specs.Causes.{cause_of_share};

use crate::fault::Fault;
use dob_pieces::Memory;
use std::alloc::AllocError;
use std::error::Error;
use std::fmt;

/// Why a node makes no further step.
#[derive(Clone, Copy, Debug, PartialEq, Eq)]
pub enum Cause {
    /// E12: the value of a class would have a distance above the greatest that is kept.
    TooDeep,
    /// E13: an item to the class of that number doesn't fit its cell.
    Contradiction(u64),
    /// E23: a growth was refused, since no memory was left for it.
    Memory,
    /// The gate of a run held the node back.
    Held,
    /// As many batches as are counted were cut for one other node, and there is more for it.
    Counts,
}

impl fmt::Display for Cause {
    ghost use Rattle.dob_share.specs.Causes.{cause_text};

    ghost output = { λ why. Some (cause_text why) };

    fn fmt<W: fmt::Write>(&self, f: &mut fmt::Formatter<W>) -> fmt::Result {
        match self {
            Cause::TooDeep => write!(f, "{}", Fault::TooDeep),
            Cause::Contradiction(class) => write!(f, "{}", Fault::Contradiction(*class)),
            Cause::Memory => write!(f, "{Memory}"),
            Cause::Held => write!(f, "Held"),
            Cause::Counts => write!(f, "Counts"),
        }
    }
}

impl Error for Cause {}

/// E14: a node of a world or of a build has stopped: which one, and why.
#[derive(Drop)]
pub struct Stopped(pub usize, pub Cause);

impl fmt::Display for Stopped {
    ghost use Rattle.dob_share.specs.Causes.{stopped_text};

    ghost output = { λ stopped. Some (stopped_text stopped.0 stopped.1) };

    fn fmt<W: fmt::Write>(&self, f: &mut fmt::Formatter<W>) -> fmt::Result {
        write!(f, "E14 Stopped node {}: {}", self.0, self.1)
    }
}

impl From<Memory> for Cause {
    ghost from_gives = { λ _ given. given ≡ cause.Memory };

    fn from(_lower: Memory) -> Cause {
        Cause::Memory
    }
}

impl From<AllocError> for Cause {
    ghost from_gives = { λ _ given. given ≡ cause.Memory };

    fn from(_lower: AllocError) -> Cause {
        Cause::Memory
    }
}

impl From<Fault> for Cause {
    ghost from_gives = { λ lower given. given ≡ cause_of_share lower };

    fn from(lower: Fault) -> Cause {
        match lower {
            Fault::TooDeep => Cause::TooDeep,
            Fault::Contradiction(class) => Cause::Contradiction(class),
        }
    }
}
