// Reading by place: what a file's header names, and the value of one class's record.
ghost use Rattle.std.specs.Prelude.{◌≡◌, ◌⊎◌, ◌<◌, ◌||◌, ◌^◌, false, IfErr, IfOk};
ghost use Rattle.dob_distance.specs.Codes.{IsEntry};
ghost use Rattle.dob_device.specs.Devices.{Stream};
ghost use Rattle.dob_dbfile.specs.Faults.{CountsClasses, NamesClasses, fails, is_io};
ghost use Rattle.dob_dbfile.specs.Looking.{HasFrontFault, HasRecord, HasRecordFault};

use crate::fault::Fault;
use crate::front::{Header, read_header};
use crate::header::{Format, HEADER_LEN};
use crate::read::fill;
use crate::records::{RECORD_LEN, value_in};
use dob_classes::Classes;
use dob_device::{Failed, PlacedSource, Source};
use dob_value::Value;
use std::alloc::Global;

/// The file's format, and the classes of the family that its header names. No more than the header is read.
///
/// # Errors
///
/// The first of these that holds: `Truncated`, fewer than 20 bytes, or `Io` if the source fails before them;
/// `Magic`, `SetByte`, what these say; in the second format the same of byte 21, and `ProfileByte`; `ClassCount`. `Memory` where none of them holds. The source has lost what was read.
pub fn read_classes<R: Source>(alloc: Global, source: &mut R) -> Result<(Format, Classes), Fault>
    requires { R.has_failed source.old ≡ false }
    ensures named { (stream : Stream) → R.gives source.old stream → IfOk result (λ found. CountsClasses found.0 found.1.family stream.bytes) }
    ensures fault { (stream : Stream) → R.gives source.old stream
        → IfErr result (λ given. (given ≡ Fault.Memory) ⊎ HasFrontFault stream given) }
    ensures memory { (stream : Stream) → R.gives source.old stream → IfErr result (λ given. given ≡ Fault.Memory → NamesClasses stream.bytes) }
    ensures shown { (stream : Stream) → R.shows source.old stream → R.shows source.new stream }
    ensures failed { R.has_failed source.new ≡ fails is_io result }
{
    let mut room = [0; HEADER_LEN];
    let Header { format, classes } = read_header(alloc, source, &mut room)?;
    Ok((format, classes))
}

/// The value that the class's record says, in a file of that format, which is read by its place. Neither another record nor
/// the digest is read, and the next record can be.
///
/// # Errors
///
/// `Truncated` if the source ends before the record's last byte; `Io` if it fails there or can't go to its
/// place, with how many bytes stand before that.
pub fn read_value<R: PlacedSource>(
    source: &mut R,
    format: Format,
    class: u64,
) -> Result<Value, Fault>
    requires { class < 2 ^ 42 }
    ensures read { (stream : Stream) → R.shows source.old stream → IfOk result (HasRecord stream format class) }
    ensures entry { IfOk result IsEntry }
    ensures fault { (stream : Stream) → R.shows source.old stream → IfErr result (HasRecordFault stream format class) }
    ensures shown { (stream : Stream) → R.shows source.old stream → R.shows source.new stream }
    ensures failed { R.has_failed source.new ≡ (R.has_failed source.old || fails is_io result) }
{
    let place = format.header_len() + RECORD_LEN * class as usize;
    match source.seek(place as u64) {
        Ok(()) => {}
        Err(Failed) => return Err(Fault::Io(place as u64)),
    }
    let mut record = [0; RECORD_LEN];
    fill(source, &mut record, place)?;
    Ok(value_in(&record))
}
