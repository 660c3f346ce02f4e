// The records of a file: two bytes for each class, the lower first.
ghost use Rattle.std.specs.Prelude.{◌≡◌, ℕ, List, ◌+◌, ◌*◌, ◌%◌, ◌-◌, ◌<◌, ◌≤◌, ◌++◌, length, take, vec_capacity, vec_len, All, IfOk, OnOk};
ghost use Rattle.byteorder.specs.Endian.{little_bytes};
ghost use Rattle.dob_distance.specs.Codes.{code_of_value, IsEntry};
ghost use Rattle.dob_dbfile.specs.Format.{code_bytes};

use byteorder::{ByteOrder, LittleEndian};
use dob_lists::Segments;
use dob_pieces::Memory;
use dob_value::{Value, value_of_code};
use std::alloc::Global;

/// How many bytes a record has.
pub(crate) const RECORD_LEN: usize = 2;

/// How many bytes of records are read or written at a time.
pub(crate) const PIECE_LEN: usize = 4096;

/// How many records are read or written at a time.
pub(crate) const PIECE_RECORDS: u64 = 2048;

/// Room for the records that are read at a time.
pub(crate) fn piece_room(alloc: Global) -> Result<Vec<u8>, Memory>
    ensures { IfOk result (λ room. length room.items ≡ 4096) }
{
    Ok(vec![in alloc; 0u8; PIECE_LEN]?)
}

// Appends a record, for which there is room.
fn push_record(bytes: &mut Vec<u8>, code: u16)
    requires { vec_len bytes.old + 2 ≤ vec_capacity bytes.old }
    ensures items { bytes.new.items ≡ bytes.old.items ++ little_bytes 2 code }
    ensures len { vec_len bytes.new ≡ vec_len bytes.old + 2 }
    ensures capacity { vec_capacity bytes.old ≤ vec_capacity bytes.new }
{
    let mut record = [0; RECORD_LEN];
    LittleEndian::write_u16(&mut record, code);
    bytes.push_reserved(record[0]);
    bytes.push_reserved(record[1]);
}

/// Puts the records that the codes from the first on are, up to the end, in place of the bytes, which have room for them.
pub(crate) fn put_records(bytes: &mut Vec<u8>, codes: &Segments<u16>, first: u64, end: u64)
    requires order { first ≤ end }
    requires within { end ≤ length codes.now }
    requires room { 2 * (end - first) ≤ vec_capacity bytes.old }
    ensures records { code_bytes (take first codes.now) ++ bytes.new.items ≡ code_bytes (take end codes.now) }
    ensures capacity { vec_capacity bytes.old ≤ vec_capacity bytes.new }
{
    bytes.clear();
    for class in first..end {
        push_record(bytes, codes.get(class));
    }
}

/// The value of a record, two bytes.
pub fn value_in(bytes: &[u8]) -> Value
    requires { length bytes.now ≡ 2 }
    ensures bytes { little_bytes 2 (code_of_value result) ≡ bytes.now }
    ensures entry { IsEntry result }
{
    value_of_code(LittleEndian::read_u16(bytes))
}

/// Appends the codes that the records are.
pub(crate) fn push_codes(codes: &mut Segments<u16>, records: &[u8]) -> Result<(), Memory>
    requires { length records.now % 2 ≡ 0 }
    ensures codes { OnOk result ((more : List ℕ) × (codes.new ≡ codes.old ++ more)
        × (code_bytes more ≡ records.now) × (2 * length more ≡ length records.now)) }
    ensures fit { All (λ code. code < 65536) codes.old → OnOk result (All (λ code. code < 65536) codes.new) }
{
    for index in 0..records.len() / RECORD_LEN {
        codes.push(LittleEndian::read_u16(&records[RECORD_LEN * index..]))?;
    }
    Ok(())
}
