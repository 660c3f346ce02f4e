// What stands before the records of a file: its format, its family, and how many classes there are.
ghost use Rattle.std.specs.Prelude.{◌≡◌, ◌≢◌, ◌⊎◌, ◌++◌, ◌≤◌, ◌↔◌, ◌∷◌, [], length, take, drop, Some, IsTrue, OnOk, IfOk, IfErr, IfSome, MatchOption, vec_capacity};
ghost use Rattle.dob_pieces.specs.declared.profile.Family.{Family as AnyFamily};
ghost use Rattle.dob_pieces.specs.declared.piece_set.PieceSet.{PieceSet as AnySet};
ghost use Rattle.dob_pieces.specs.declared.profile.Profile.{Profile as AnyProfile};
ghost use Rattle.dob_dbfile.specs.declared.header.Format.{Format as AnyFormat};
ghost use Rattle.dob_dbfile.specs.declared.header.Format.TheVariants.{Second};
ghost use Rattle.dob_dbfile.specs.Format.{title, set_bytes, profile_number, profile_bytes, count_bytes};
ghost use Rattle.dob_dbfile.specs.Faults.{SaysProfile, NamesSet, NamesFamily, NamesClasses, HasHeader, CountsClasses, HasHeaderFault, count_place, header_len};

use crate::fault::Fault;
use byteorder::{ByteOrder, LittleEndian};
use dob_classes::{Classes, count_classes};
use dob_pieces::{Family, Memory, PieceSet, Profile};
use std::alloc::Global;

/// How many bytes are read before anything is tested: the whole header of the first format.
pub(crate) const FRONT_LEN: usize = 20;

/// How many bytes the header of the second format has.
pub(crate) const HEADER_LEN: usize = 21;

// How many bytes of a header are the number of classes, its last ones.
const COUNT_LEN: usize = 8;

/// The formats of a file.
#[derive(Clone, Copy, PartialEq, Eq)]
pub enum Format {
    /// It begins with `DOBUTSU1` and says no profile: its tables are of profile A. It is read, and not written.
    First,
    /// It begins with `DOBUTSU2` and says the profile.
    Second,
}

impl Format {
    /// How many bytes stand before the records.
    pub(crate) fn header_len(self) -> usize
        ensures { result ≡ header_len self }
    {
        match self {
            Format::First => FRONT_LEN,
            Format::Second => HEADER_LEN,
        }
    }
}

/// Appends the header of a file of that family and `count` classes, in the second format.
pub(crate) fn push_header(bytes: &mut Vec<u8>, family: Family, count: u64) -> Result<(), Memory>
    ensures items { OnOk result (bytes.new.items
        ≡ bytes.old.items ++ (title Second ++ set_bytes family.set ++ profile_bytes Second family.profile ++ count_bytes count)) }
    ensures capacity { vec_capacity bytes.old ≤ vec_capacity bytes.new }
{
    let set = family.set;
    let profile = family.profile.number();
    bytes.extend_from_slice(b"DOBUTSU2")?;
    bytes.extend_from_slice(&[set.chicks, set.elephants, set.giraffes, 2, profile])?;
    let mut word = [0; COUNT_LEN];
    LittleEndian::write_u64(&mut word, count);
    bytes.extend_from_slice(&word)?;
    Ok(())
}

/// The format and the set that the first bytes name.
///
/// # Errors
///
/// `Magic`, `SetByte`.
pub(crate) fn front_named(front: &[u8]) -> Result<(Format, PieceSet), Fault>
    requires { length front.now ≡ 20 }
    ensures named { IfOk result (λ named. NamesSet named.0 named.1 front.now) }
    ensures fault { IfErr result (HasHeaderFault front.now) }
{
    let Some(format) = format_named(&front[..8]) else {
        return Err(Fault::Magic);
    };
    let Some(set) = set_named(&front[8..12]) else {
        return Err(Fault::SetByte);
    };
    Ok((format, set))
}

/// The family of that set that the whole header names, where it has the number of its classes.
///
/// # Errors
///
/// `ProfileByte`, `ClassCount`.
pub(crate) fn family_counted(format: Format, set: PieceSet, header: &[u8]) -> Result<Family, Fault>
    requires named { HasHeader format set header.now }
    requires long { length header.now ≡ header_len format }
    ensures counted { IfOk result (λ family. CountsClasses format family header.now) }
    ensures fault { IfErr result (HasHeaderFault header.now) }
{
    let Some(profile) = profile_named(format, header) else {
        return Err(Fault::ProfileByte);
    };
    let family = Family { set, profile };
    let count = &header[format.header_len() - COUNT_LEN..];
    if is_count(count, count_classes(family)) {
        Ok(family)
    } else {
        Err(Fault::ClassCount)
    }
}

/// The classes of the family of that set that the whole header names, where it has their number. They are counted as they are opened; where memory is
/// refused they are counted without.
///
/// # Errors
///
/// `ProfileByte`, `ClassCount`; `Memory` if neither of them holds.
pub(crate) fn classes_counted(
    alloc: Global,
    format: Format,
    set: PieceSet,
    header: &[u8],
) -> Result<Classes, Fault>
    requires named { HasHeader format set header.now }
    requires long { length header.now ≡ header_len format }
    ensures counted { IfOk result (λ classes. CountsClasses format classes.family header.now) }
    ensures fault { IfErr result (λ given. (given ≡ Fault.Memory) ⊎ HasHeaderFault header.now given) }
    ensures memory { IfErr result (λ given. given ≡ Fault.Memory → NamesClasses header.now) }
{
    let Some(profile) = profile_named(format, header) else {
        return Err(Fault::ProfileByte);
    };
    let Ok(classes) = Classes::open(alloc, Family { set, profile }) else {
        let _family = family_counted(format, set, header)?;
        return Err(Fault::Memory);
    };
    let count = &header[format.header_len() - COUNT_LEN..];
    if is_count(count, classes.class_count()) {
        Ok(classes)
    } else {
        Err(Fault::ClassCount)
    }
}

/// The family of that set that the whole header names, if the header counts that many classes.
pub(crate) fn family_saying(
    format: Format,
    set: PieceSet,
    header: &[u8],
    classes: u64,
) -> Option<Family>
    requires named { HasHeader format set header.now }
    requires long { length header.now ≡ header_len format }
    ensures some { IfSome result (λ family. NamesFamily format family header.now
        × (take 8 (drop (count_place format) header.now) ≡ count_bytes classes)) }
    ensures none { (family : AnyFamily) → family.set ≡ set → NamesFamily format family header.now
        → take 8 (drop (count_place format) header.now) ≡ count_bytes classes → result ≡ Some family }
{
    let profile = profile_named(format, header)?;
    if is_count(&header[format.header_len() - COUNT_LEN..], classes) {
        Some(Family { set, profile })
    } else {
        None
    }
}

// The format that begins with those bytes.
fn format_named(bytes: &[u8]) -> Option<Format>
    ensures { MatchOption result ((format : AnyFormat) → bytes.now ≢ title format) (λ format. bytes.now ≡ title format) }
{
    if bytes == b"DOBUTSU1".as_slice() {
        Some(Format::First)
    } else if bytes == b"DOBUTSU2".as_slice() {
        Some(Format::Second)
    } else {
        None
    }
}

/// The piece set that those bytes name.
pub fn set_named(bytes: &[u8]) -> Option<PieceSet>
    ensures { MatchOption result ((set : AnySet) → bytes.now ≢ set_bytes set) (λ set. bytes.now ≡ set_bytes set) }
{
    match *bytes {
        [chicks @ 0..=2, elephants @ 0..=2, giraffes @ 0..=2, 2] => Some(PieceSet {
            chicks,
            elephants,
            giraffes,
        }),
        _ => None,
    }
}

// The profile that a header says.
fn profile_named(format: Format, header: &[u8]) -> Option<Profile>
    requires { length header.now ≡ header_len format }
    ensures { MatchOption result ((profile : AnyProfile) → ¬ SaysProfile format profile header.now) (λ profile. SaysProfile format profile header.now) }
{
    match format {
        Format::First => Some(Profile::A),
        Format::Second => profile_of(&header[12..13]),
    }
}

// The profile that the byte names.
fn profile_of(bytes: &[u8]) -> Option<Profile>
    ensures { MatchOption result ((profile : AnyProfile) → bytes.now ≢ profile_number profile ∷ []) (λ profile. bytes.now ≡ profile_number profile ∷ []) }
{
    match *bytes {
        [number] => Profile::of_number(number),
        _ => None,
    }
}

// Whether the eight bytes are that number of classes.
fn is_count(bytes: &[u8], count: u64) -> bool
    requires { length bytes.now ≡ 8 }
    ensures { IsTrue result ↔ (bytes.now ≡ count_bytes count) }
{
    LittleEndian::read_u64(bytes) == count
}
