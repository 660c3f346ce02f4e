// Why a question isn't answered, and the numbers by which other languages learn it.
ghost use Rattle.std.specs.Prelude.{◌≡◌, ◌≢◌, MatchResult};
ghost use Rattle.dob_rank.specs.Families.{IsPositionOf};
ghost use Rattle.dobutsu_c.specs.Faults.{IsStranger, fault_number, stranger_number};

use dob_dbfile::Fault as FileFault;
use dob_foreign::{file_number, text_number};
use dob_pieces::{Family, Position};
use dob_text::TextFault;

/// A fault of a text, of a file, or of the position in the file.
#[derive(Clone, Copy)]
pub(crate) enum QuestionFault {
    /// The text is no position's.
    Text(TextFault),
    /// The bytes are no table's file, as far as they are looked at.
    File(FileFault),
    /// The position isn't of the file's family.
    Member(Stranger),
}

/// Why a position isn't one of a family.
#[derive(Clone, Copy)]
pub(crate) enum Stranger {
    /// E26: a chick stands where the family's profile lets none stand.
    FarChick,
    /// E7: the pieces aren't those of the family's set.
    OtherSet,
}

impl QuestionFault {
    /// The fault's number, which the program prints behind an `E`.
    pub(crate) fn number(self) -> u32
        ensures number { result ≡ fault_number self }
        ensures positive { result ≢ 0 }
    {
        match self {
            QuestionFault::Text(fault) => text_number(fault),
            QuestionFault::File(fault) => file_number(fault),
            QuestionFault::Member(stranger) => stranger.number(),
        }
    }
}

impl Stranger {
    /// The fault's number.
    pub(crate) fn number(self) -> u32
        ensures number { result ≡ stranger_number self }
        ensures positive { result ≢ 0 }
    {
        match self {
            Stranger::FarChick => 26,
            Stranger::OtherSet => 7,
        }
    }
}

/// Passes the positions of the family.
pub(crate) fn check_member(family: Family, position: &Position) -> Result<(), Stranger>
    ensures { MatchResult result (λ _. IsPositionOf family position.now.setup) (IsStranger family position.now.setup) }
{
    if !position.is_allowed(family.profile) {
        Err(Stranger::FarChick)
    } else if position.piece_set() != family.set {
        Err(Stranger::OtherSet)
    } else {
        Ok(())
    }
}
