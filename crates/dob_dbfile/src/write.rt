// Writing a table as a file, piece by piece.
ghost use Rattle.std.specs.Prelude.{◌≡◌, ◌+◌, ◌*◌, ◌≤◌, ◌<◌, ◌^◌, false, length, vec_capacity, IfErr, OnOk};
ghost use Rattle.dob_dbfile.specs.Format.{bytes_of, code_bytes, digest_of, header_in};
ghost use Rattle.dob_dbfile.specs.declared.header.Format.TheVariants.{Second};
ghost use Rattle.dob_dbfile.specs.Faults.{fails, is_io};
ghost use Rattle.dob_device.specs.Sinks.{Puts, Writes, change};
ghost use Rattle.dob_dbfile.specs.Writing.{WriteStopsAt, StopsPast};

use crate::digest::{digest_of, header_piece};
use crate::fault::Fault;
use crate::header::HEADER_LEN;
use crate::records::{PIECE_RECORDS, RECORD_LEN, put_records};
use dob_device::{FailedAfter, Sink, put_all, write_all};
use dob_lists::Segments;
use dob_value::Table;
use std::alloc::Global;

/// Writes a table as a file of the second format, in pieces of a few kilobytes, and flushes the sink once at the end.
///
/// # Errors
///
/// `Memory`, before anything is written; `Io` if the sink fails in this call, which then has received exactly
/// the first bytes of the file, as many as the fault says, and all of them where it failed to flush.
pub fn write_table<W: Sink>(alloc: Global, table: &Table, sink: &mut W) -> Result<(), Fault>
    requires { (W.state sink.old).has_failed ≡ false }
    ensures written { OnOk result (Puts (change (W.state sink.old) (W.state sink.new)) (bytes_of table.now)) }
    ensures stopped { IfErr result (WriteStopsAt (change (W.state sink.old) (W.state sink.new)) (bytes_of table.now)) }
    ensures failed { (W.state sink.new).has_failed ≡ fails is_io result }
{
    let digest = digest_of(alloc, table)?;
    write_digested(alloc, table, &digest, sink)
}

/// Writes a table as above, with the digest of its file, which was made before.
///
/// # Errors
///
/// As of `write_table`.
pub fn write_digested<W: Sink>(
    alloc: Global,
    table: &Table,
    digest: &[u8; 32],
    sink: &mut W,
) -> Result<(), Fault>
    requires works { (W.state sink.old).has_failed ≡ false }
    requires digest { digest.now ≡ digest_of table.now }
    ensures written { OnOk result (Puts (change (W.state sink.old) (W.state sink.new)) (bytes_of table.now)) }
    ensures stopped { IfErr result (WriteStopsAt (change (W.state sink.old) (W.state sink.new)) (bytes_of table.now)) }
    ensures failed { (W.state sink.new).has_failed ≡ fails is_io result }
{
    let mut piece = header_piece(alloc, table.family(), table.class_count())?;
    match put_file(table, digest, sink, &mut piece) {
        Ok(()) => Ok(()),
        Err(FailedAfter { bytes: count }) => Err(Fault::Io(count as u64)),
    }
}

// Writes the file, whose header the piece is and whose digest is given, and flushes the sink once at the end.
fn put_file<W: Sink>(
    table: &Table,
    digest: &[u8; 32],
    sink: &mut W,
    piece: &mut Vec<u8>,
) -> Result<(), FailedAfter>
    requires room { 4096 ≤ vec_capacity piece.old }
    requires header { piece.old.items ≡ header_in Second table.now }
    requires digest { digest.now ≡ digest_of table.now }
    ensures done { OnOk result (Puts (change (W.state sink.old) (W.state sink.new)) (bytes_of table.now)) }
    ensures part { IfErr result (StopsPast (change (W.state sink.old) (W.state sink.new)) 0 (bytes_of table.now)) }
{
    let codes = table.codes();
    write_after(sink, piece, 0)?;
    write_records(codes, sink, piece)?;
    put_after(sink, digest, HEADER_LEN + RECORD_LEN * codes.len() as usize)
}

// Writes the records that the codes are, by pieces.
fn write_records<W: Sink>(
    codes: &Segments<u16>,
    sink: &mut W,
    piece: &mut Vec<u8>,
) -> Result<(), FailedAfter>
    requires { 4096 ≤ vec_capacity piece.old }
    ensures done { OnOk result (Writes (change (W.state sink.old) (W.state sink.new)) (code_bytes codes.now)) }
    ensures part { IfErr result (StopsPast (change (W.state sink.old) (W.state sink.new)) 21 (code_bytes codes.now)) }
{
    let count = codes.len();
    let mut class = 0;
    'pieces: while class < count {
        let end = count.min(class + PIECE_RECORDS);
        put_records(piece, codes, class, end);
        write_after(sink, piece, HEADER_LEN + RECORD_LEN * class as usize)?;
        class = end;
    }
    Ok(())
}

// Writes the bytes. `before` bytes of the file went in already.
fn write_after<W: Sink>(sink: &mut W, bytes: &[u8], before: usize) -> Result<(), FailedAfter>
    requires { before < 2 ^ 62 }
    ensures done { OnOk result (Writes (change (W.state sink.old) (W.state sink.new)) bytes.now) }
    ensures part { IfErr result (StopsPast (change (W.state sink.old) (W.state sink.new)) before bytes.now) }
{
    match write_all(sink, bytes) {
        Ok(()) => Ok(()),
        Err(FailedAfter { bytes: count }) => Err(FailedAfter {
            bytes: before + count,
        }),
    }
}

// Writes the last bytes, and flushes the sink. `before` bytes of the file went in already.
fn put_after<W: Sink>(sink: &mut W, bytes: &[u8], before: usize) -> Result<(), FailedAfter>
    requires { before < 2 ^ 62 }
    ensures done { OnOk result (Puts (change (W.state sink.old) (W.state sink.new)) bytes.now) }
    ensures part { IfErr result (StopsPast (change (W.state sink.old) (W.state sink.new)) before bytes.now) }
{
    match put_all(sink, bytes) {
        Ok(()) => Ok(()),
        Err(FailedAfter { bytes: count }) => Err(FailedAfter {
            bytes: before + count,
        }),
    }
}
