// The faults of the program, their lines and their exit statuses.
ghost use Rattle.std.specs.Prelude.{◌≡◌, Some};
ghost use Rattle.dob_files.specs.declared.fault.ProgramFault.TheVariants as fault;

use crate::certificate_fault::CertificateFault;
use dob_pieces::{Memory, SetText};
use dob_shelf::ShelfFault;
use dob_text::TextFault;
use std::error::Error;
use std::fmt;

/// Why the program refuses what it is asked, or fails at it.
#[derive(Clone, Copy, Debug)]
pub enum ProgramFault {
    /// E1 to E6, E26: the text isn't a position's of the profile.
    Text(TextFault),
    /// E25: the text isn't a piece set's.
    SetText,
    /// E12: a distance would be above 65,534 plies.
    TooDeep,
    /// E9, E14, E23: the build isn't begun, or it was stopped.
    Run(dob_share::BuildFault),
    /// E15 to E20, E23, E24, E27: the file isn't one of a table, or reading or writing it failed.
    File(dob_dbfile::Fault),
    /// E7, E21, E23, E26: the table has no answer.
    Table(dob_probe::Fault),
    /// No puzzle has that length: an even number of plies, or less than 3.
    PuzzlePlies,
    /// E15 to E20, E27, E30 to E42: the certificate proves nothing, there is none, or it says nothing of the position.
    Certificate(CertificateFault),
    /// E23: a growth was refused for lack of memory.
    Memory,
    /// E24: standard output failed, or the file couldn't be opened or made.
    Io,
}

/// The lines of an answer, or why there are none.
pub type Answer = Result<String, ProgramFault>;

impl ProgramFault {
    ghost use Rattle.dob_files.specs.Faults.{is_io, status_of};

    /// The exit status: 1 if what was asked is refused, 2 if the words make no sense, 3 if the program failed.
    pub fn status(self) -> u8
        ensures { result ≡ status_of self }
    {
        match self {
            ProgramFault::Text(_) | ProgramFault::SetText => 1,
            ProgramFault::PuzzlePlies => 2,
            ProgramFault::Certificate(fault) => fault.status(),
            ProgramFault::TooDeep | ProgramFault::Memory | ProgramFault::Io => 3,
            ProgramFault::Run(
                dob_share::BuildFault::Stopped { .. } | dob_share::BuildFault::Memory,
            ) => 3,
            ProgramFault::Run(_) => 1,
            ProgramFault::File(dob_dbfile::Fault::Memory | dob_dbfile::Fault::Io(_)) => 3,
            ProgramFault::File(_) => 1,
            ProgramFault::Table(dob_probe::Fault::Memory) => 3,
            ProgramFault::Table(_) => 1,
        }
    }

    /// Whether it is the fault of a device that failed.
    pub fn is_io(self) -> bool
        ensures { result ≡ is_io self }
    {
        match self {
            ProgramFault::Io | ProgramFault::File(dob_dbfile::Fault::Io(_)) => true,
            ProgramFault::File(_) => false,
            ProgramFault::Text(_)
            | ProgramFault::SetText
            | ProgramFault::TooDeep
            | ProgramFault::Run(_)
            | ProgramFault::Table(_) => false,
            ProgramFault::PuzzlePlies | ProgramFault::Certificate(_) | ProgramFault::Memory =>
                false,
        }
    }
}

impl fmt::Display for ProgramFault {
    ghost use Rattle.dob_files.specs.Faults.{fault_text};

    ghost output = { λ fault. Some (fault_text fault) };

    fn fmt<W: fmt::Write>(&self, f: &mut fmt::Formatter<W>) -> fmt::Result {
        match self {
            ProgramFault::Text(fault) => write!(f, "{fault}"),
            ProgramFault::SetText => write!(f, "{SetText}"),
            ProgramFault::TooDeep => write!(f, "{}", dob_value::Fault::TooDeep),
            ProgramFault::Run(fault) => write!(f, "{fault}"),
            ProgramFault::File(fault) => write!(f, "{fault}"),
            ProgramFault::Table(fault) => write!(f, "{fault}"),
            ProgramFault::PuzzlePlies => write!(f, "--plies is an odd number of at least 3"),
            ProgramFault::Certificate(fault) => write!(f, "{fault}"),
            ProgramFault::Memory => write!(f, "{Memory}"),
            ProgramFault::Io => write!(f, "{}", dob_dbfile::Fault::Io(0)),
        }
    }
}

impl Error for ProgramFault {}

impl From<TextFault> for ProgramFault {
    ghost from_gives = { λ given result. result ≡ fault.Text given };

    fn from(given: TextFault) -> ProgramFault {
        ProgramFault::Text(given)
    }
}

impl From<SetText> for ProgramFault {
    ghost from_gives = { λ _ result. result ≡ fault.SetText };

    fn from(_given: SetText) -> ProgramFault {
        ProgramFault::SetText
    }
}

impl From<dob_value::Fault> for ProgramFault {
    ghost use Rattle.dob_files.specs.Faults.{fault_of_value};

    ghost from_gives = { λ given result. result ≡ fault_of_value given };

    fn from(given: dob_value::Fault) -> ProgramFault {
        match given {
            dob_value::Fault::TooDeep => ProgramFault::TooDeep,
            dob_value::Fault::Memory => ProgramFault::Memory,
        }
    }
}

impl From<dob_share::BuildFault> for ProgramFault {
    ghost from_gives = { λ given result. result ≡ fault.Run given };

    fn from(given: dob_share::BuildFault) -> ProgramFault {
        ProgramFault::Run(given)
    }
}

impl From<dob_dbfile::Fault> for ProgramFault {
    ghost from_gives = { λ given result. result ≡ fault.File given };

    fn from(given: dob_dbfile::Fault) -> ProgramFault {
        ProgramFault::File(given)
    }
}

impl From<dob_probe::Fault> for ProgramFault {
    ghost from_gives = { λ given result. result ≡ fault.Table given };

    fn from(given: dob_probe::Fault) -> ProgramFault {
        ProgramFault::Table(given)
    }
}

impl From<dob_probe::LookupFault<dob_dbfile::Fault>> for ProgramFault {
    ghost use Rattle.dob_files.specs.Faults.{fault_of_records};

    ghost from_gives = { λ given result. result ≡ fault_of_records given };

    fn from(given: dob_probe::LookupFault<dob_dbfile::Fault>) -> ProgramFault {
        match given {
            dob_probe::LookupFault::NoValue(fault) => ProgramFault::File(fault),
            dob_probe::LookupFault::Inconsistent(class) => ProgramFault::Table(
                dob_probe::Fault::Inconsistent(class),
            ),
            dob_probe::LookupFault::Memory => ProgramFault::Memory,
        }
    }
}

impl From<dob_probe::LookupFault<dob_probe::Fault>> for ProgramFault {
    ghost use Rattle.dob_files.specs.Faults.{fault_of_table};

    ghost from_gives = { λ given result. result ≡ fault_of_table given };

    fn from(given: dob_probe::LookupFault<dob_probe::Fault>) -> ProgramFault {
        match given {
            dob_probe::LookupFault::NoValue(fault) => ProgramFault::Table(fault),
            dob_probe::LookupFault::Inconsistent(class) => ProgramFault::Table(
                dob_probe::Fault::Inconsistent(class),
            ),
            dob_probe::LookupFault::Memory => ProgramFault::Memory,
        }
    }
}

impl From<ShelfFault> for ProgramFault {
    ghost use Rattle.dob_files.specs.Faults.{fault_of_shelf};

    ghost from_gives = { λ given result. result ≡ fault_of_shelf given };

    fn from(given: ShelfFault) -> ProgramFault {
        match given {
            ShelfFault::Memory => ProgramFault::Memory,
            ShelfFault::Failed => ProgramFault::Io,
        }
    }
}

impl From<Memory> for ProgramFault {
    ghost from_gives = { λ _ result. result ≡ fault.Memory };

    fn from(_lower: Memory) -> ProgramFault {
        ProgramFault::Memory
    }
}
