// Reading what stands before the records.
ghost use Rattle.std.specs.Prelude.{◌≡◌, ◌≢◌, ◌⊎◌, ◌||◌, length, take, IfOk, IfErr, OnOk};
ghost use Rattle.dob_device.specs.Devices.{Stream, after};
ghost use Rattle.dob_dbfile.specs.Faults.{CountsClasses, NamesClasses, NamesSet, fails, header_len, is_io};
ghost use Rattle.dob_dbfile.specs.Looking.{HasFrontFault};
ghost use Rattle.dob_dbfile.specs.Reading.{TakesBytes};

use crate::fault::Fault;
use crate::header::{FRONT_LEN, Format, classes_counted, front_named};
use crate::read::fill;
use dob_classes::Classes;
use dob_device::Source;
use dob_pieces::PieceSet;
use std::alloc::Global;

/// What a header says: the format, and the classes of the family.
#[derive(Drop)]
pub(crate) struct Header {
    pub(crate) format: Format,
    pub(crate) classes: Classes,
}

/// Reads the header into the front of the room, and opens the classes that it counts.
///
/// # Errors
///
/// `Truncated`, `Magic`, `SetByte`, `ProfileByte`, `ClassCount`, `Io`; `Memory` if none of them holds.
pub(crate) fn read_header<R: Source>(
    alloc: Global,
    source: &mut R,
    room: &mut [u8],
) -> Result<Header, Fault>
    requires { length room.old ≡ 21 }
    ensures counted { (stream : Stream) → R.gives source.old stream
        → IfOk result (λ header. CountsClasses header.format header.classes.family stream.bytes) }
    ensures taken { (stream : Stream) → R.gives source.old stream → IfOk result (λ header. TakesBytes stream (take (header_len header.format) room.new)
        × R.gives source.new (after (header_len header.format) stream)) }
    ensures fault { (stream : Stream) → R.gives source.old stream
        → IfErr result (λ given. (given ≡ Fault.Memory) ⊎ HasFrontFault stream given) }
    ensures memory { (stream : Stream) → R.gives source.old stream → IfErr result (λ given. given ≡ Fault.Memory → NamesClasses stream.bytes) }
    ensures shown { (stream : Stream) → R.shows source.old stream → R.shows source.new stream }
    ensures failed { R.has_failed source.new ≡ (R.has_failed source.old || fails is_io result) }
{
    let (format, set) = read_front(source, &mut room[..FRONT_LEN])?;
    fill(source, &mut room[FRONT_LEN..format.header_len()], FRONT_LEN)?;
    let classes = classes_counted(alloc, format, set, &room[..format.header_len()])?;
    Ok(Header { format, classes })
}

// Reads the bytes that both formats have before the number of classes, and tests the first of them.
fn read_front<R: Source>(source: &mut R, room: &mut [u8]) -> Result<(Format, PieceSet), Fault>
    requires { length room.old ≡ 20 }
    ensures taken { (stream : Stream) → R.gives source.old stream → OnOk result (TakesBytes stream room.new × R.gives source.new (after 20 stream)) }
    ensures named { IfOk result (λ named. NamesSet named.0 named.1 room.new) }
    ensures fault { (stream : Stream) → R.gives source.old stream → IfErr result (HasFrontFault stream) }
    ensures shown { (stream : Stream) → R.shows source.old stream → R.shows source.new stream }
    ensures failed { R.has_failed source.new ≡ (R.has_failed source.old || fails is_io result) }
{
    fill(source, room, 0)?;
    front_named(room)
}
