// The faults of certificates, their lines and their exit statuses.
ghost use Rattle.std.specs.Prelude.{◌≡◌, Some};
ghost use Rattle.dob_files.specs.declared.fault.ProgramFault.TheVariants as fault;

use crate::fault::ProgramFault;
use dob_certfile::{Defect, ReadFault, WriteFault};
use dob_certificate::{Refusal, TooMany};
use std::fmt;

/// Why a certificate proves nothing, why there is none, or why it gives no reply.
#[derive(Clone, Copy, Debug)]
pub enum CertificateFault {
    /// E15 to E20, E27, E32 to E38, E42: the file isn't a certificate's.
    Defect(Defect),
    /// E30, E31: the lists don't prove the claim.
    Unproved(Refusal),
    /// E39: there would be more than N entries.
    TooMany(u64),
    /// E40: no file can say that many plies.
    Unfit,
    /// E41: the certificate says nothing of the position.
    Unlisted,
}

impl CertificateFault {
    ghost use Rattle.dob_files.specs.Faults.{status_of_certificate};

    /// The exit status.
    pub(crate) fn status(self) -> u8
        ensures { result ≡ status_of_certificate self }
    {
        match self {
            CertificateFault::Unfit => 3,
            CertificateFault::Unproved(_) | CertificateFault::Defect(_) => 1,
            CertificateFault::TooMany(_) | CertificateFault::Unlisted => 1,
        }
    }
}

impl fmt::Display for CertificateFault {
    ghost use Rattle.dob_files.specs.Faults.{certificate_fault_text};

    ghost output = { λ fault. Some (certificate_fault_text fault) };

    fn fmt<W: fmt::Write>(&self, f: &mut fmt::Formatter<W>) -> fmt::Result {
        match self {
            CertificateFault::Defect(defect) => write!(f, "{defect}"),
            CertificateFault::Unproved(refusal) => write!(f, "{refusal}"),
            CertificateFault::TooMany(most) => write!(f, "{}", TooMany { most: *most }),
            CertificateFault::Unfit => write!(f, "{}", WriteFault::Unfit),
            CertificateFault::Unlisted => write!(f, "E41 Unlisted"),
        }
    }
}

impl From<ReadFault> for ProgramFault {
    ghost use Rattle.dob_files.specs.Faults.{fault_of_reading};

    ghost from_gives = { λ given result. result ≡ fault_of_reading given };

    fn from(given: ReadFault) -> ProgramFault {
        match given {
            ReadFault::Memory => ProgramFault::Memory,
            ReadFault::Defect(defect) => ProgramFault::Certificate(CertificateFault::Defect(
                defect,
            )),
        }
    }
}

impl From<Refusal> for ProgramFault {
    ghost use Rattle.dob_files.specs.Faults.{fault_of_refusal};

    ghost from_gives = { λ given result. result ≡ fault_of_refusal given };

    fn from(given: Refusal) -> ProgramFault {
        ProgramFault::Certificate(CertificateFault::Unproved(given))
    }
}
