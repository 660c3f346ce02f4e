// The faults of an item.
ghost use Rattle.std.specs.Prelude.{Some};

use std::error::Error;
use std::fmt;

/// Why an item isn't applied.
#[derive(Clone, Copy, Debug, PartialEq, Eq)]
pub enum Fault {
    /// E12: the value of the item's class would have a distance above the greatest that is kept.
    TooDeep,
    /// E13: the item to the class of that number doesn't fit its cell.
    Contradiction(u64),
}

impl fmt::Display for Fault {
    ghost use Rattle.dob_share.specs.Faults.{fault_text};

    ghost output = { λ fault. Some (fault_text fault) };

    fn fmt<W: fmt::Write>(&self, f: &mut fmt::Formatter<W>) -> fmt::Result {
        match self {
            Fault::TooDeep => write!(f, "{}", dob_distance::ValueFault::TooDeep),
            Fault::Contradiction(class) => write!(f, "E13 Contradiction class {class}"),
        }
    }
}

impl Error for Fault {}
