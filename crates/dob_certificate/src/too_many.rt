// The fault of a certificate that would have more entries than it may.
ghost use Rattle.std.specs.Prelude.{Some};

use std::fmt;

/// E39: a certificate would have more than so many entries.
#[derive(Clone, Copy)]
pub struct TooMany {
    /// How many it may have.
    pub most: u64,
}

impl fmt::Display for TooMany {
    ghost use Rattle.dob_certificate.specs.Refusals.{too_many_text};

    ghost output = { λ too. Some (too_many_text too.most) };

    fn fmt<W: fmt::Write>(&self, f: &mut fmt::Formatter<W>) -> fmt::Result {
        let most = self.most;
        write!(f, "E39 TooMany more than {most} entries")
    }
}
