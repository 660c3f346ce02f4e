// A file whose bytes the caller holds or has mapped, or of which the first bytes and the length are known: what it says of itself, and the record of one class.
// No memory is taken.
ghost use Rattle.std.specs.Prelude.{◌≡◌, ◌≢◌, ◌+◌, ◌*◌, ◌^◌, ◌≤◌, ◌↔◌, ℕ, List, length, take, drop, Some, IfOk, IfErr, IfSome, IsErrOf};
ghost use Rattle.dob_pieces.specs.declared.profile.Family.{Family as AnyFamily};
ghost use Rattle.dob_rank.specs.Families.{classes_of};
ghost use Rattle.dob_distance.specs.Codes.{IsEntry};
ghost use Rattle.dob_dbfile.specs.declared.fault.Fault.{Fault as AnyFault};
ghost use Rattle.dob_dbfile.specs.declared.header.Format.{Format as AnyFormat};
ghost use Rattle.dob_device.specs.Devices.{whole};
ghost use Rattle.dob_dbfile.specs.Format.{count_bytes};
ghost use Rattle.dob_dbfile.specs.Faults.{CountsClasses, NamesFamily, HasReadFault, HasHeaderFault, IsHeaderShort, IsNoLonger, count_place, file_len, header_len};
ghost use Rattle.dob_dbfile.specs.Fronts.{IsFrontOf};
ghost use Rattle.dob_dbfile.specs.Looking.{HasFrontFault, HasRecord, place_of};

use crate::fault::Fault;
use crate::header::{FRONT_LEN, Format, family_counted, family_saying, front_named};
use crate::read::DIGEST_LEN;
use crate::records::{RECORD_LEN, value_in};
use dob_classes::count_classes;
use dob_pieces::Family;
use dob_value::Value;

/// The format of a file and the family whose table it holds, by its header and by how many bytes there are. The digest isn't
/// read.
///
/// # Errors
///
/// Exactly if it is the first that holds: those of `read_table` but `Digest`, `Memory` and `Io`.
pub fn held_family(bytes: &[u8]) -> Result<(Format, Family), Fault>
    ensures named { IfOk result (λ held. IsNoLonger held.0 held.1 (whole bytes.now)) }
    ensures fault { (fault : AnyFault) → IsErrOf result fault ↔ (HasReadFault (whole bytes.now) fault × (fault ≢ Fault.Digest)) }
{
    front_family(bytes, bytes.len() as u64)
}

/// The format and the family of a file of `size` bytes that begins with those of `front`, the first 21 or all of a shorter file: what `held_family` says of the
/// whole.
///
/// # Errors
///
/// Those of `held_family`.
pub fn front_family(front: &[u8], size: u64) -> Result<(Format, Family), Fault>
    ensures named { (file : List ℕ) → IsFrontOf front.now size file → IfOk result (λ held. IsNoLonger held.0 held.1 (whole file)) }
    ensures fault { (file : List ℕ) → IsFrontOf front.now size file → IfErr result (HasReadFault (whole file)) }
    ensures known { IfErr result (λ given. given ≢ Fault.Digest) }
{
    let (format, family) = held_header(front)?;
    let wanted = file_len(format, family) as u64;
    if size < wanted {
        Err(Fault::Truncated)
    } else if wanted < size {
        Err(Fault::Trailing)
    } else {
        Ok((format, family))
    }
}

/// How many bytes stand before the records of a file of that format.
pub fn header_len(format: Format) -> u64
    ensures { result ≡ header_len format }
{
    format.header_len() as u64
}

// How many bytes a file of that format and family has.
fn file_len(format: Format, family: Family) -> usize
    ensures { result ≡ file_len format family }
{
    let records = RECORD_LEN * count_classes(family) as usize;
    format.header_len() + records + DIGEST_LEN
}

// What the header says.
fn held_header(bytes: &[u8]) -> Result<(Format, Family), Fault>
    ensures counted { IfOk result (λ held. CountsClasses held.0 held.1 bytes.now) }
    ensures front { IfErr result (HasFrontFault (whole bytes.now)) }
    ensures known { IfErr result (λ given. given ≢ Fault.Digest) }
{
    if bytes.len() < FRONT_LEN {
        return Err(Fault::Truncated);
    }
    let (format, set) = front_named(&bytes[..FRONT_LEN])?;
    if bytes.len() < format.header_len() {
        return Err(Fault::Truncated);
    }
    Ok((
        format,
        family_counted(format, set, &bytes[..format.header_len()])?,
    ))
}

/// The format and the family that the header names, if it counts `classes` and there are exactly as many bytes as such a file has. The digest
/// isn't read. If the family has `classes` classes, each file of its own is such.
pub fn held_counted(bytes: &[u8], classes: u64) -> Option<(Format, Family)>
    requires few { classes ≤ 2 ^ 42 }
    ensures named { IfSome result (λ held. NamesFamily held.0 held.1 bytes.now) }
    ensures counted { IfSome result (λ held. take 8 (drop (count_place held.0) bytes.now) ≡ count_bytes classes) }
    ensures long { IfSome result (λ held. length bytes.now ≡ header_len held.0 + 2 * classes + 32) }
    ensures some { (format : AnyFormat) (family : AnyFamily) → classes ≡ classes_of family → IsNoLonger format family (whole bytes.now)
        → result ≡ Some (format, family) }
{
    if bytes.len() < FRONT_LEN {
        return None;
    }
    let Ok((format, set)) = front_named(&bytes[..FRONT_LEN]) else {
        return None;
    };
    if bytes.len() != format.header_len() + RECORD_LEN * classes as usize + DIGEST_LEN {
        return None;
    }
    let family = family_saying(format, set, &bytes[..format.header_len()], classes)?;
    Some((format, family))
}

/// The value that the class's record says, in a file of that format.
pub fn held_value(bytes: &[u8], format: Format, class: u64) -> Value
    requires { place_of format class + 2 ≤ length bytes.now }
    ensures read { HasRecord (whole bytes.now) format class result }
    ensures entry { IsEntry result }
{
    let place = format.header_len() + RECORD_LEN * class as usize;
    value_in(&bytes[place..place + RECORD_LEN])
}
