// Why values that are said give no moves or no line.
ghost use Rattle.std.specs.Prelude.{◌≡◌};
ghost use Rattle.dob_probe.specs.Said.{fault_of};
ghost use Rattle.dob_probe.specs.declared.gap.LookupFault.TheVariants as gap;

use crate::fault::Fault;
use dob_pieces::Memory;

/// Why values that are said give no moves or no line.
#[derive(Clone, Copy)]
pub enum LookupFault<F> {
    /// A value that is needed isn't said.
    NoValue(F),
    /// E21: what is said of the class of this number doesn't go with what is said of others.
    Inconsistent(u64),
    /// E23: a growth was refused, since no memory was left for it.
    Memory,
}

impl<F> From<Memory> for LookupFault<F> {
    ghost from_gives = { λ _ given. given ≡ gap.Memory };

    fn from(_lower: Memory) -> LookupFault<F> {
        LookupFault::Memory
    }
}

/// The fault of a table, which has a value for each position of its family.
pub(crate) fn fault_of(gap: LookupFault<Fault>) -> Fault
    ensures { result ≡ fault_of gap }
{
    match gap {
        LookupFault::NoValue(fault) => fault,
        LookupFault::Inconsistent(class) => Fault::Inconsistent(class),
        LookupFault::Memory => Fault::Memory,
    }
}
