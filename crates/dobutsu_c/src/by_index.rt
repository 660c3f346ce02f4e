// What is asked of a file whose bytes are held, by the numbers of an index: a position of its family. Where they are the index of that family, the answer is
// that without one. By any other numbers it is the value of some record of the file, or a fault: one that an index has too, or that they are none.
ghost use Rattle.std.specs.Prelude.{◌≡◌, ◌≢◌, ◌-◌, ◌/◌, ℕ, List, length, MatchOption, MatchResult};
ghost use Rattle.dob_pieces.specs.declared.profile.Family.{Family as AnyFamily};
ghost use Rattle.dob_dbfile.specs.declared.header.Format.{Format as AnyFormat};
ghost use Rattle.dob_device.specs.Devices.{whole};
ghost use Rattle.dob_dbfile.specs.Faults.{IsNoLonger};
ghost use Rattle.dob_rank.specs.Families.{IsPositionOf};
ghost use Rattle.dob_distance.specs.Codes.{IsEntry};
ghost use Rattle.dobutsu_c.specs.declared.numbering.Numbering.TheVariants.{Counted, Index};
ghost use Rattle.dobutsu_c.specs.ByIndex.{IsRight, IsLongFor, IsHeldBy, IsAskedBy, IsGivenBy, IsToldBy, HasByFault, HasFileFault, HasHeldFault};
ghost use Rattle.dobutsu_c.specs.Probes.{IsTextOf};

use crate::fault::{QuestionFault, check_member};
use crate::numbering::Numbering;
use crate::numbers::INDEX;
use dob_dbfile::{Format, held_counted, held_family, held_value};
use dob_index::{classes_in, is_index_of};
use dob_pieces::{Family, Position, Profile};
use dob_text::read_position_bytes;
use dob_value::Value;

// How many bytes a file of the first format has beside its records: in the second there is one more, so that half of what is left is the number of classes.
const LEAST_LEN: u64 = 52;

// The greatest number of classes that a file is asked for.
const MOST_CLASSES: u64 = 1 << 42;

/// A fault of what is asked, or that the numbers are no index of the file's family.
#[derive(Clone, Copy)]
pub(crate) enum ByFault {
    Asked(QuestionFault),
    Index,
}

impl ByFault {
    ghost use Rattle.dobutsu_c.specs.ByIndex.{number_by};

    /// The fault's number.
    pub(crate) fn number(self) -> u32
        ensures number { result ≡ number_by self }
        ensures positive { result ≢ 0 }
    {
        match self {
            ByFault::Asked(fault) => fault.number(),
            ByFault::Index => INDEX,
        }
    }
}

/// A file's format and family, and how many classes its header counts.
#[derive(Clone, Copy)]
pub(crate) struct HeldBy {
    pub(crate) format: Format,
    pub(crate) family: Family,
    pub(crate) classes: u64,
}

/// A position that a text is of, and what is held.
#[derive(Clone, Copy)]
pub(crate) struct AskedBy {
    pub(crate) held: HeldBy,
    pub(crate) position: Position,
}

/// What is asked, or the first fault.
pub(crate) fn ask_by(file: &[u8], by: Numbering, text: &[u8]) -> Result<AskedBy, ByFault>
    ensures { MatchResult result
        (λ asked. IsAskedBy file.now text.now by.entry asked.held.format asked.held.family asked.held.classes asked.position.setup)
        (HasByFault file.now text.now by.entry) }
{
    match read_position_bytes(Profile::A, text) {
        Ok(position) => ask_at(file, by, position),
        Err(fault) => Err(ByFault::Asked(QuestionFault::Text(fault))),
    }
}

/// The same of a position, which is that of its text.
pub(crate) fn ask_at(file: &[u8], by: Numbering, position: Position) -> Result<AskedBy, ByFault>
    ensures { (text : List ℕ) → IsTextOf text position.setup → MatchResult result
        (λ asked. IsAskedBy file.now text by.entry asked.held.format asked.held.family asked.held.classes asked.position.setup)
        (HasByFault file.now text by.entry) }
{
    let held = match held_by(file, by) {
        Ok(held) => held,
        Err(fault) => return Err(fault),
    };
    match check_member(held.family, &position) {
        Ok(()) => Ok(AskedBy { held, position }),
        Err(stranger) => Err(ByFault::Asked(QuestionFault::Member(stranger))),
    }
}

/// The value of the position whose text that is, or the first fault.
pub(crate) fn probe_by(file: &[u8], by: Numbering, text: &[u8]) -> Result<Value, ByFault>
    ensures { MatchResult result (IsToldBy file.now text.now by.entry) (HasByFault file.now text.now by.entry) }
{
    match read_position_bytes(Profile::A, text) {
        Ok(position) => probe_at(file, by, position),
        Err(fault) => Err(ByFault::Asked(QuestionFault::Text(fault))),
    }
}

/// The value of a position, which is that of its text, or the first fault.
pub(crate) fn probe_at(file: &[u8], by: Numbering, position: Position) -> Result<Value, ByFault>
    ensures { (text : List ℕ) → IsTextOf text position.setup → MatchResult result
        (IsToldBy file.now text by.entry)
        (HasByFault file.now text by.entry) }
{
    let asked = match ask_at(file, by, position) {
        Ok(asked) => asked,
        Err(fault) => return Err(fault),
    };
    match value_by(file, by, asked.held, &asked.position) {
        Some(value) => Ok(value),
        None => Err(ByFault::Index),
    }
}

// The file's format, family and number of classes, or the first fault of the file and of what numbers its classes.
fn held_by(file: &[u8], by: Numbering) -> Result<HeldBy, ByFault>
    ensures { MatchResult result
        (λ held. IsHeldBy file.now by.entry held.format held.family held.classes)
        (HasHeldFault file.now by.entry) }
{
    match by {
        Numbering::Counted => held_counting(file),
        Numbering::Index(words) => held_with(file, words),
    }
}

// What the header says, where a position's class is found by counting those before it.
fn held_counting(file: &[u8]) -> Result<HeldBy, ByFault>
    ensures { MatchResult result
        (λ held. IsHeldBy file.now Counted held.format held.family held.classes)
        (HasHeldFault file.now Counted) }
{
    match held_family(file) {
        Ok((format, family)) => Ok(HeldBy {
            format,
            family,
            classes: classes_by_length(file),
        }),
        Err(fault) => Err(ByFault::Asked(QuestionFault::File(fault))),
    }
}

// The same by an index. The family's classes are counted only if the file is longer or shorter than it says, or the index is marked as one of the file's
// family and says another number.
fn held_with(file: &[u8], words: &[u64]) -> Result<HeldBy, ByFault>
    ensures { MatchResult result
        (λ held. IsHeldBy file.now (Index words.entry) held.format held.family held.classes)
        (HasHeldFault file.now (Index words.entry)) }
{
    let Some(held) = held_as_long(file) else {
        return Err(fault_of(file));
    };
    if !is_index_of(held.family, words) {
        return Err(ByFault::Index);
    }
    if classes_in(words) == held.classes {
        Ok(held)
    } else {
        Err(fault_of(file))
    }
}

// The first fault of the file, or that it has none and the index is wrong.
fn fault_of(file: &[u8]) -> ByFault
    ensures { HasFileFault file.now result }
{
    match held_family(file) {
        Ok(_) => ByFault::Index,
        Err(fault) => ByFault::Asked(QuestionFault::File(fault)),
    }
}

// The file's format and family, and as many classes as its header counts, where it is as long as they need.
fn held_as_long(file: &[u8]) -> Option<HeldBy>
    ensures { MatchOption result
        ((format : AnyFormat) (family : AnyFamily) → ¬ IsNoLonger format family (whole file.now))
        (λ held. IsLongFor file.now held.format held.family held.classes) }
{
    let classes = classes_by_length(file);
    if classes > MOST_CLASSES {
        return None;
    }
    let (format, family) = held_counted(file, classes)?;
    Some(HeldBy {
        format,
        family,
        classes,
    })
}

// How many classes a file of so many bytes has records for.
fn classes_by_length(file: &[u8]) -> u64
    ensures { result ≡ (length file.now - 52) / 2 }
{
    (file.len() as u64).saturating_sub(LEAST_LEN) / 2
}

/// The value that the file gives a position of its family by the index; none if the index leads outside of the file.
pub(crate) fn value_by(
    file: &[u8],
    by: Numbering,
    held: HeldBy,
    position: &Position,
) -> Option<Value>
    requires held { IsHeldBy file.now by held.format held.family held.classes }
    requires member { IsPositionOf held.family position.now.setup }
    ensures { MatchOption result (¬ IsRight by.entry held.family)
        (λ value. IsEntry value × IsGivenBy file.now by.entry held.format held.family held.classes position.now.setup value) }
{
    let class = by.class_of(held.family, position);
    if class < held.classes {
        Some(held_value(file, held.format, class))
    } else {
        None
    }
}
