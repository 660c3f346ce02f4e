// The fault for lack of memory.
ghost use Rattle.std.specs.Prelude.{Some};
ghost use Rattle.dob_pieces.specs.Faults.{memory_text};

use std::alloc::{AllocError, AllocFailed};
use std::error::Error;
use std::fmt;

/// E23: a growth was refused, since no memory was left for it.
#[derive(Clone, Copy, Debug, PartialEq, Eq)]
pub struct Memory;

impl fmt::Display for Memory {
    ghost output = { λ _. Some memory_text };

    fn fmt<W: fmt::Write>(&self, f: &mut fmt::Formatter<W>) -> fmt::Result {
        write!(f, "E23 Memory")
    }
}

impl Error for Memory {}

impl From<AllocError> for Memory {
    fn from(_lower: AllocError) -> Memory {
        Memory
    }
}

impl<T: Drop> From<AllocFailed<T>> for Memory {
    fn from(_lower: AllocFailed<T>) -> Memory {
        Memory
    }
}
