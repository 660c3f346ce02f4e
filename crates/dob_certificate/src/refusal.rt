// Why a certificate is refused.
ghost use Rattle.std.specs.Prelude.{Some};

use std::error::Error;
use std::fmt;

/// Why a certificate doesn't prove what is claimed.
#[derive(Clone, Copy, Debug, PartialEq, Eq)]
pub enum Refusal {
    /// E30: the entry of this class is the first, in the order of the lost list and then of the held one, that its list doesn't support.
    Unsupported(u32),
    /// E31: each entry is supported, and the lists don't show what is claimed.
    Claim,
}

impl fmt::Display for Refusal {
    ghost use Rattle.dob_certificate.specs.Refusals.{fault_text};

    ghost output = { λ refusal. Some (fault_text refusal) };

    fn fmt<W: fmt::Write>(&self, f: &mut fmt::Formatter<W>) -> fmt::Result {
        match self {
            Refusal::Unsupported(class) => write!(f, "E30 Unsupported class {class}"),
            Refusal::Claim => write!(f, "E31 Claim"),
        }
    }
}

impl Error for Refusal {}
