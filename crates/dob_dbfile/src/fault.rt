// The faults of this crate.
ghost use Rattle.std.specs.Prelude.{◌≡◌, Some};
ghost use Rattle.dob_dbfile.specs.declared.fault.Fault.TheVariants as fault;

use dob_pieces::Memory;
use std::error::Error;
use std::fmt;

/// Why a file isn't read or written.
#[derive(Clone, Copy, Debug, PartialEq, Eq)]
pub enum Fault {
    /// E15: the bytes end before the header, or before the records and the digest of the family that it names.
    Truncated,
    /// E16: the file doesn't begin as such files do.
    Magic,
    /// E17: the bytes after that name no piece set.
    SetByte,
    /// E18: the family hasn't that number of classes.
    ClassCount,
    /// E19: a byte stands after the digest.
    Trailing,
    /// E20: the digest isn't that of the bytes before it.
    Digest,
    /// E23: a growth was refused, since no memory was left for it.
    Memory,
    /// E24: what is read from or written to failed after that many bytes.
    Io(u64),
    /// E27: byte 12 of a file in the second format is no profile's.
    ProfileByte,
}

impl fmt::Display for Fault {
    ghost use Rattle.dob_dbfile.specs.FaultTexts.{fault_text};

    ghost output = { λ fault. Some (fault_text fault) };

    fn fmt<W: fmt::Write>(&self, f: &mut fmt::Formatter<W>) -> fmt::Result {
        match self {
            Fault::Truncated => write!(f, "E15 Truncated"),
            Fault::Magic => write!(f, "E16 Magic"),
            Fault::SetByte => write!(f, "E17 SetByte"),
            Fault::ClassCount => write!(f, "E18 ClassCount"),
            Fault::Trailing => write!(f, "E19 Trailing"),
            Fault::Digest => write!(f, "E20 Digest"),
            Fault::Memory => write!(f, "{Memory}"),
            Fault::Io(_) => write!(f, "E24 Io"),
            Fault::ProfileByte => write!(f, "E27 ProfileByte"),
        }
    }
}

impl Error for Fault {}

impl From<Memory> for Fault {
    ghost from_gives = { λ _ given. given ≡ fault.Memory };

    fn from(_lower: Memory) -> Fault {
        Fault::Memory
    }
}
