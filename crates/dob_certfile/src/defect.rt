// Why a certificate's file isn't read or written.
ghost use Rattle.std.specs.Prelude.{◌≡◌, Some};
ghost use Rattle.dob_certfile.specs.declared.defect.ReadFault.TheVariants as faults;
ghost use Rattle.dob_certfile.specs.declared.defect.WriteFault.TheVariants as write_faults;

use dob_pieces::Memory;
use std::alloc::AllocFailed;
use std::error::Error;
use std::fmt;

/// What is wrong with the bytes of a file: the first defect from left to right.
#[derive(Clone, Copy, Debug)]
pub enum Defect {
    /// E15: there are fewer than 28 bytes, or they end within the entries or the digest.
    Truncated,
    /// E16: the file doesn't begin as certificates do.
    Magic,
    /// E32: it is of another version.
    Version,
    /// E17: the bytes after that name no piece set.
    SetByte,
    /// E27: the byte after that is no profile's.
    ProfileByte,
    /// E33: the family has no class of the root's number.
    RootClass,
    /// E34: the claim's kind isn't 0 to 4, its plies are 255, or those of a draw aren't 0.
    ClaimByte,
    /// E35: a list counts more entries than the family has classes.
    EntryCount,
    /// E36: an entry begins with no number in its fewest bytes, five at most.
    EntryNumber,
    /// E37: an entry's class isn't above the one before it.
    EntryOrder,
    /// E38: the family has no class of an entry's number.
    EntryClass,
    /// E42: an entry of the lost list has the plies of *ever*.
    EntryPlies,
    /// E19: a byte stands after the digest.
    Trailing,
    /// E20: the digest isn't that of the bytes before it.
    Digest,
}

impl fmt::Display for Defect {
    ghost use Rattle.dob_certfile.specs.Faults.{defect_text};

    ghost output = { λ defect. Some (defect_text defect) };

    fn fmt<W: fmt::Write>(&self, f: &mut fmt::Formatter<W>) -> fmt::Result {
        match self {
            Defect::Truncated => write!(f, "{}", dob_dbfile::Fault::Truncated),
            Defect::Magic => write!(f, "{}", dob_dbfile::Fault::Magic),
            Defect::Version => write!(f, "E32 Version"),
            Defect::SetByte => write!(f, "{}", dob_dbfile::Fault::SetByte),
            Defect::ProfileByte => write!(f, "{}", dob_dbfile::Fault::ProfileByte),
            Defect::RootClass => write!(f, "E33 RootClass"),
            Defect::ClaimByte => write!(f, "E34 ClaimByte"),
            Defect::EntryCount => write!(f, "E35 EntryCount"),
            Defect::EntryNumber => write!(f, "E36 EntryNumber"),
            Defect::EntryOrder => write!(f, "E37 EntryOrder"),
            Defect::EntryClass => write!(f, "E38 EntryClass"),
            Defect::EntryPlies => write!(f, "E42 EntryPlies"),
            Defect::Trailing => write!(f, "{}", dob_dbfile::Fault::Trailing),
            Defect::Digest => write!(f, "{}", dob_dbfile::Fault::Digest),
        }
    }
}

impl Error for Defect {}

/// Why a file isn't read.
#[derive(Clone, Copy, Debug)]
pub enum ReadFault {
    /// E23: a growth was refused, since no memory was left for it.
    Memory,
    Defect(Defect),
}

impl fmt::Display for ReadFault {
    ghost use Rattle.dob_certfile.specs.Faults.{read_fault_text};

    ghost output = { λ fault. Some (read_fault_text fault) };

    fn fmt<W: fmt::Write>(&self, f: &mut fmt::Formatter<W>) -> fmt::Result {
        match self {
            ReadFault::Memory => write!(f, "{Memory}"),
            ReadFault::Defect(defect) => write!(f, "{}", *defect),
        }
    }
}

impl Error for ReadFault {}

impl From<Defect> for ReadFault {
    ghost from_gives = { λ lower given. given ≡ faults.Defect lower };

    fn from(lower: Defect) -> ReadFault {
        ReadFault::Defect(lower)
    }
}

impl<T: Drop> From<AllocFailed<T>> for ReadFault {
    ghost from_gives = { λ _ given. given ≡ faults.Memory };

    fn from(_lower: AllocFailed<T>) -> ReadFault {
        ReadFault::Memory
    }
}

/// Why a file isn't written.
#[derive(Clone, Copy, Debug)]
pub enum WriteFault {
    /// E23: a growth was refused, since no memory was left for it.
    Memory,
    /// E40: the root or an entry is no class of the family, or the claim or an entry has more than 254 plies,
    /// but for *ever* of the held list.
    Unfit,
    /// E24: what is written to failed after that many bytes.
    Io(u64),
}

impl fmt::Display for WriteFault {
    ghost use Rattle.dob_certfile.specs.Faults.{write_fault_text};

    ghost output = { λ fault. Some (write_fault_text fault) };

    fn fmt<W: fmt::Write>(&self, f: &mut fmt::Formatter<W>) -> fmt::Result {
        match self {
            WriteFault::Memory => write!(f, "{Memory}"),
            WriteFault::Unfit => write!(f, "E40 Unfit"),
            WriteFault::Io(bytes) => write!(f, "{}", dob_dbfile::Fault::Io(*bytes)),
        }
    }
}

impl Error for WriteFault {}

impl From<Memory> for WriteFault {
    ghost from_gives = { λ _ given. given ≡ write_faults.Memory };

    fn from(_lower: Memory) -> WriteFault {
        WriteFault::Memory
    }
}
