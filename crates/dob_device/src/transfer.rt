// Whole runs of bytes over devices that move them in pieces.
ghost use Rattle.std.specs.Prelude.{◌≡◌, ℕ, ◌+◌, ◌-◌, ◌<◌, ◌≤◌, ◌||◌, [], take, drop, length, is_err, IfOk, IfErr, OnOk};
ghost use Rattle.dob_device.specs.Devices.{Stream, after, broken, Fills};
ghost use Rattle.dob_device.specs.Sinks.{Puts, StopsAfter, Writes, change};

use crate::device::{Failed, FailedAfter, Sink, Source};

/// Writes all the bytes, in as many pieces as the sink makes of them.
///
/// # Errors
///
/// The sink failed, and has received exactly the first bytes, as many as the answer says.
pub fn write_all<W: Sink>(sink: &mut W, bytes: &[u8]) -> Result<(), FailedAfter>
    ensures done { OnOk result (Writes (change (W.state sink.old) (W.state sink.new)) bytes.now) }
    ensures part { IfErr result (λ failed. StopsAfter (change (W.state sink.old) (W.state sink.new)) bytes.now failed.bytes) }
{
    let mut done = 0;
    while done < bytes.len() {
        match sink.write(&bytes[done..]) {
            Ok(count) => done += count,
            Err(Failed) => return Err(FailedAfter { bytes: done }),
        }
    }
    Ok(())
}

/// Writes all the bytes, and flushes the sink once after them.
///
/// # Errors
///
/// The sink failed, and has received exactly the first bytes, as many as the answer says: all of them where it
/// failed to flush.
pub fn put_all<W: Sink>(sink: &mut W, bytes: &[u8]) -> Result<(), FailedAfter>
    ensures done { OnOk result (Puts (change (W.state sink.old) (W.state sink.new)) bytes.now) }
    ensures part { IfErr result (λ failed. StopsAfter (change (W.state sink.old) (W.state sink.new)) bytes.now failed.bytes) }
{
    write_all(sink, bytes)?;
    match sink.flush() {
        Ok(()) => Ok(()),
        Err(Failed) => Err(FailedAfter { bytes: bytes.len() }),
    }
}

/// Fills the room with the next bytes, in as many pieces as the source makes of them, and answers how many there are:
/// fewer than there is room for only if the source comes to its end.
///
/// # Errors
///
/// The source failed after that many bytes, which are fewer than there is room for.
pub fn read_full<R: Source>(source: &mut R, room: &mut [u8]) -> Result<usize, FailedAfter>
    ensures within { IfOk result (λ count. count ≤ length room.new) }
    ensures given { (stream : Stream) → R.gives source.old stream
        → IfOk result (λ count. Fills stream count room.new × R.gives source.new (after count stream)) }
    ensures broken { (stream : Stream) → R.gives source.old stream
        → IfErr result (λ failed. (failed.bytes < length room.new) × (stream ≡ broken (take failed.bytes room.new))) }
    ensures fits { IfErr result (λ failed. failed.bytes < length room.new) }
    ensures shown { (stream : Stream) → R.shows source.old stream → R.shows source.new stream }
    ensures failed { R.has_failed source.new ≡ (R.has_failed source.old || is_err result) }
{
    let mut done = 0;
    while done < room.len() {
        match source.read(&mut room[done..]) {
            Ok(count) if count > 0 => done += count,
            Ok(_) => return Ok(done),
            Err(Failed) => return Err(FailedAfter { bytes: done }),
        }
    }
    Ok(done)
}
