// Reading a table from a file.
ghost use Rattle.std.specs.Prelude.{◌≡◌, ◌≢◌, ◌⊎◌, ℕ, List, ◌+◌, ◌*◌, ◌%◌, ◌^◌, ◌<◌, ◌≤◌, ◌||◌, [], false, length, All, IfOk};
ghost use Rattle.std.specs.Prelude.{IfErr, OnOk, MatchResult};
ghost use Rattle.dob_value.specs.Follows.{ClassTable, IsTable};
ghost use Rattle.dob_dbfile.specs.declared.fault.Fault.{Fault as AnyFault};
ghost use Rattle.sha2.specs.Hashers.{Holds256};
ghost use Rattle.dob_device.specs.Devices.{Stream, after, whole};
ghost use Rattle.dob_dbfile.specs.Format.{IsFile};
ghost use Rattle.dob_dbfile.specs.Faults.{NamesClasses, HasReadFault, PassesAll, fails, is_io};
ghost use Rattle.dob_dbfile.specs.Reading.{TakesBytes, GivesFewer, IsNoEnd, ReadsCodes, HashesNext, EndsWith, IsDigest, HasDigestFault, HasRestFault};

use crate::fault::Fault;
use crate::front::{Header, read_header};
use crate::header::HEADER_LEN;
use crate::records::{PIECE_RECORDS, RECORD_LEN, piece_room, push_codes};
use dob_device::{Failed, Source, are_same, read_full};
use dob_lists::{SegmentLength, Segments};
use dob_pieces::Memory;
use dob_value::Table;
use sha2::{Digest, Sha256};
use std::alloc::Global;

/// How many bytes the digest has.
pub(crate) const DIGEST_LEN: usize = 32;

/// Reads the table of a file: of exactly the bytes that are a file of it, in either format, up to the source's end.
///
/// # Errors
///
/// The first of these that holds: `Truncated`, fewer than 20 bytes; `Magic`, `SetByte`, what these say; in the
/// second format `Truncated`, fewer than 21 bytes, and `ProfileByte`; `ClassCount`; `Truncated`, fewer bytes
/// than the family's records and digest have; `Trailing`, a byte more; `Digest`. `Io` only if the source fails in this
/// call, with how many bytes it gave before. `Memory`, in place of what is tested after `ClassCount`, or of the table. The
/// source has lost what was read.
pub fn read_table<R: Source>(alloc: Global, source: &mut R) -> Result<Table, Fault>
    requires { R.has_failed source.old ≡ false }
    // A table is read only if the source gives exactly a file of it and ends.
    ensures read { (stream : Stream) → R.gives source.old stream → IfOk result (λ table. (stream.fails ≡ false) × IsFile stream.bytes table) }
    // A fault is given only if it is the first that holds.
    ensures fault { (stream : Stream) → R.gives source.old stream
        → IfErr result (λ given. (given ≡ Fault.Memory) ⊎ HasReadFault stream given) }
    // Where a fault holds it is given, or memory was refused.
    ensures exact { (stream : Stream) (fault : AnyFault) → R.gives source.old stream → HasReadFault stream fault
        → MatchResult result (λ _. ⊥) (λ given. (given ≡ Fault.Memory) ⊎ (given ≡ fault)) }
    // A file of a table is read as that table, unless memory is refused.
    ensures whole { (table : ClassTable) (bytes : List ℕ) → IsTable table.family table.values → IsFile bytes table
        → R.gives source.old (whole bytes)
        → MatchResult result (λ found. found ≡ table) (λ given. given ≡ Fault.Memory) }
    // Memory is wanted only once the header names a family with its number of classes.
    ensures memory { (stream : Stream) → R.gives source.old stream → IfErr result (λ given. given ≡ Fault.Memory → NamesClasses stream.bytes) }
    // What is read is a table, also if nothing is known of the source.
    ensures table { IfOk result (λ table. IsTable table.family table.values) }
    ensures failed { R.has_failed source.new ≡ fails is_io result }
{
    read_file(alloc, source)
}

// Reads the table of a file, which passes all tests.
fn read_file<R: Source>(alloc: Global, source: &mut R) -> Result<Table, Fault>
    requires { R.has_failed source.old ≡ false }
    ensures read { (stream : Stream) → R.gives source.old stream
        → IfOk result (λ table. (stream.fails ≡ false) × IsFile stream.bytes table × PassesAll stream) }
    ensures table { IfOk result (λ table. IsTable table.family table.values) }
    ensures fault { (stream : Stream) → R.gives source.old stream
        → IfErr result (λ given. (given ≡ Fault.Memory) ⊎ HasReadFault stream given) }
    ensures memory { (stream : Stream) → R.gives source.old stream → IfErr result (λ given. given ≡ Fault.Memory → NamesClasses stream.bytes) }
    ensures failed { R.has_failed source.new ≡ fails is_io result }
{
    let mut room = [0; HEADER_LEN];
    let Header { format, classes } = read_header(alloc, source, &mut room)?;
    let front = &room[..format.header_len()];
    let codes = read_codes(alloc, source, front, classes.class_count())?;
    Ok(Table::new(classes, codes))
}

/// Fills the room. `before` bytes of the file have come already.
pub(crate) fn fill<R: Source>(source: &mut R, room: &mut [u8], before: usize) -> Result<(), Fault>
    requires { before + length room.old < 2 ^ 64 }
    ensures taken { (stream : Stream) → R.gives source.old stream
        → OnOk result (TakesBytes stream room.new × R.gives source.new (after (length room.new) stream)) }
    ensures cut { (stream : Stream) → R.gives source.old stream → IfErr result (GivesFewer (length room.new) before stream) }
    ensures known { IfErr result (λ given. given ≢ Fault.Memory) }
    ensures shown { (stream : Stream) → R.shows source.old stream → R.shows source.new stream }
    ensures failed { R.has_failed source.new ≡ (R.has_failed source.old || fails is_io result) }
{
    match read_full(source, room) {
        Ok(count) if count == room.len() => Ok(()),
        Ok(_) => Err(Fault::Truncated),
        Err(failed) => Err(Fault::Io((before + failed.bytes) as u64)),
    }
}

// The codes of `count` records, which stand after the header and before the digest of all that.
fn read_codes<R: Source>(
    alloc: Global,
    source: &mut R,
    header: &[u8],
    count: u64,
) -> Result<Segments<u16>, Fault>
    requires few { count < 2 ^ 31 }
    requires short { length header.now ≤ 21 }
    ensures counted { IfOk result (λ codes. length codes ≡ count) }
    ensures fit { IfOk result (λ codes. All (λ code. code < 65536) codes) }
    ensures read { (stream : Stream) → R.gives source.old stream → IfOk result (λ codes. EndsWith header.now codes stream) }
    ensures fault { (stream : Stream) → R.gives source.old stream → IfErr result (HasRestFault header.now count stream) }
    ensures failed { R.has_failed source.new ≡ (R.has_failed source.old || fails is_io result) }
{
    let mut hasher = Sha256::new();
    hasher.update(header);
    let codes = read_records(alloc, source, &mut hasher, count, header.len())?;
    expect_digest(source, hasher, header.len() + RECORD_LEN * count as usize)?;
    Ok(codes)
}

// Finds the digest of what the hasher holds, and then the end. `before` bytes of the file have come already.
fn expect_digest<R: Source>(source: &mut R, hasher: Sha256, before: usize) -> Result<(), Fault>
    requires { before < 2 ^ 63 }
    ensures is { (stream : Stream) (message : List ℕ) → R.gives source.old stream → Holds256 hasher message → OnOk result (IsDigest message stream) }
    ensures fault { (stream : Stream) (message : List ℕ) → R.gives source.old stream → Holds256 hasher message
        → IfErr result (HasDigestFault message before stream) }
    ensures failed { R.has_failed source.new ≡ (R.has_failed source.old || fails is_io result) }
{
    let mut digest = [0; DIGEST_LEN];
    fill(source, &mut digest, before)?;
    expect_end(source, before + DIGEST_LEN)?;
    if are_same(&digest, &hasher.finalize()) {
        Ok(())
    } else {
        Err(Fault::Digest)
    }
}

// The codes of the next records; `before` bytes of the file have come already. Memory is taken as they come.
fn read_records<R: Source>(
    alloc: Global,
    source: &mut R,
    hasher: &mut Sha256,
    count: u64,
    before: usize,
) -> Result<Segments<u16>, Fault>
    requires few { count < 2 ^ 31 }
    requires short { before ≤ 21 }
    ensures counted { IfOk result (λ codes. length codes ≡ count) }
    ensures fit { IfOk result (λ codes. All (λ code. code < 65536) codes) }
    ensures codes { (stream : Stream) → R.gives source.old stream
        → IfOk result (λ codes. ReadsCodes stream (2 * count) [] codes × R.gives source.new (after (2 * count) stream)) }
    ensures hashed { (stream : Stream) → R.gives source.old stream → OnOk result (HashesNext stream (2 * count) hasher.old hasher.new) }
    ensures cut { (stream : Stream) → R.gives source.old stream → IfErr result (GivesFewer (2 * count) before stream) }
    ensures failed { R.has_failed source.new ≡ (R.has_failed source.old || fails is_io result) }
{
    let mut codes = Segments::new(alloc, SegmentLength::longest());
    let mut buffer = piece_room(alloc)?;
    let room = buffer.as_mut_slice();
    'records: while codes.len() < count {
        let records = (count - codes.len()).min(PIECE_RECORDS) as usize;
        read_piece(
            source,
            hasher,
            &mut room[..RECORD_LEN * records],
            &mut codes,
            before,
        )?;
    }
    Ok(codes)
}

// Reads as many records as there is room for. Before the first of all stand `before` bytes.
fn read_piece<R: Source>(
    source: &mut R,
    hasher: &mut Sha256,
    room: &mut [u8],
    codes: &mut Segments<u16>,
    before: usize,
) -> Result<(), Fault>
    requires pairs { length room.old % 2 ≡ 0 }
    requires short { before ≤ 21 }
    requires few { 2 * length codes.old + length room.old < 2 ^ 32 }
    ensures counted { OnOk result (2 * length codes.new ≡ 2 * length codes.old + length room.old) }
    ensures fit { All (λ code. code < 65536) codes.old → OnOk result (All (λ code. code < 65536) codes.new) }
    ensures codes { (stream : Stream) → R.gives source.old stream
        → OnOk result (ReadsCodes stream (length room.old) codes.old codes.new × R.gives source.new (after (length room.old) stream)) }
    ensures hashed { (stream : Stream) → R.gives source.old stream → OnOk result (HashesNext stream (length room.old) hasher.old hasher.new) }
    ensures cut { (stream : Stream) → R.gives source.old stream → IfErr result (GivesFewer (length room.old) (before + 2 * length codes.old) stream) }
    ensures failed { R.has_failed source.new ≡ (R.has_failed source.old || fails is_io result) }
{
    fill(source, room, before + RECORD_LEN * codes.len() as usize)?;
    hasher.update(&*room);
    push_codes(codes, room)?;
    Ok(())
}

// Finds the source at its end, after `before` bytes.
fn expect_end<R: Source>(source: &mut R, before: usize) -> Result<(), Fault>
    ensures end { (stream : Stream) → R.gives source.old stream → OnOk result (stream ≡ whole []) }
    ensures fault { (stream : Stream) → R.gives source.old stream → IfErr result (IsNoEnd before stream) }
    ensures failed { R.has_failed source.new ≡ (R.has_failed source.old || fails is_io result) }
{
    let mut byte = [0];
    match source.read(&mut byte) {
        Ok(0) => Ok(()),
        Ok(_) => Err(Fault::Trailing),
        Err(Failed) => Err(Fault::Io(before as u64)),
    }
}
