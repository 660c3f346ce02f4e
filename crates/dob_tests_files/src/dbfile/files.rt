// Files of the set of lions alone, in both formats, whose values and digests are from outside: that they are written and read, and what is read of files
// that are spoilt.
use crate::sets::{are_one_table, family};
use dob_dbfile::{Fault, MemSink, MemSource, Sink, Source, read_table, write_table};
use dob_pieces::Profile;
use dob_value::{Table, sweep_table};
use std::process::Abort;

/// The bytes of testdata/lions_alone_2.db: the header, the record of each class, and the digest.
pub(super) const FILE: &[u8] = b"\
    DOBUTSU2\0\0\0\x02\06\0\0\0\0\0\0\0\
    \x02\0\x01\0\x02\0\x02\0\x03\0\x07\0\0\0\x07\0\x08\0\x06\0\x08\0\x02\0\x02\0\x02\0\0\0\x05\0\x08\0\x06\0\
    \x02\0\x02\0\x01\0\x02\0\x03\0\x02\0\x02\0\x04\0\0\0\x06\0\x04\0\x02\0\x02\0\x02\0\x02\0\x02\0\x04\0\0\0\
    \x01\0\x01\0\x01\0\x02\0\x02\0\x02\0\x02\0\x02\0\x02\0\x02\0\x02\0\x01\0\x01\0\x02\0\x02\0\x02\0\x02\0\x02\0\
    i\x1c*\xf8\xbf\x1a\x12y\xcc\xba*\x14\x15H\xdf~\
    \xd1@.\xf7\x17s\xa6\x1e\x89\x14'2\x1eo\xfb\xff";

// The bytes of testdata/lions_alone.db, which is of the first format.
const FIRST: &[u8] = b"\
    DOBUTSU1\0\0\0\x026\0\0\0\0\0\0\0\
    \x02\0\x01\0\x02\0\x02\0\x03\0\x07\0\0\0\x07\0\x08\0\x06\0\x08\0\x02\0\x02\0\x02\0\0\0\x05\0\x08\0\x06\0\
    \x02\0\x02\0\x01\0\x02\0\x03\0\x02\0\x02\0\x04\0\0\0\x06\0\x04\0\x02\0\x02\0\x02\0\x02\0\x02\0\x04\0\0\0\
    \x01\0\x01\0\x01\0\x02\0\x02\0\x02\0\x02\0\x02\0\x02\0\x02\0\x02\0\x01\0\x01\0\x02\0\x02\0\x02\0\x02\0\x02\0\
    \x09\x8b\xe5\x0e\xc1\xac\x90R\x85\x05\xba\x83\xd4\xea\x8f\xa4\
    \x18\x133\xf8a\x22\xef8Bx\xd1\x0c\x81\x880t";

/// The table of lions alone in profile A.
pub(super) fn table(rt: &(impl Abort + AllocGlobal)) -> Table {
    sweep_table(rt.alloc(), family(rt, "000", Profile::A)).expect(rt, "a table")
}

/// A copy of the first so many bytes.
pub(super) fn beginning(rt: &(impl Abort + AllocGlobal), bytes: &[u8], len: usize) -> Vec<u8> {
    let mut copy = Vec::new(rt.alloc());
    copy.extend_from_slice(bytes).expect(rt, "memory");
    copy.truncate(len);
    copy
}

// A copy with all bits of the byte at that place turned.
fn turned(rt: &(impl Abort + AllocGlobal), bytes: &[u8], place: usize) -> Vec<u8> {
    let mut copy = beginning(rt, bytes, bytes.len());
    if let Some(byte) = copy.get_mut(place) {
        *byte = !*byte;
    }
    copy
}

// The source is refused so.
fn is_refused(rt: &(impl Abort + AllocGlobal), mut source: MemSource, fault: Fault) {
    assert!(rt; !source.failed());
    assert!(rt; read_table(rt.alloc(), &mut source).err() == Some(fault));
}

#[test]
fn written_and_read_in_pieces(rt: HostRuntime) {
    let table = table(&rt);
    for longest in 1..9 {
        let mut sink = MemSink::new(rt.alloc()).in_pieces(longest);
        assert!(rt; write_table(rt.alloc(), &table, &mut sink).is_ok());
        assert!(rt; sink.bytes() == FILE && sink.flushes() == [FILE.len()].as_slice());
        let mut source = MemSource::new(sink.into_bytes()).in_pieces(longest);
        let again = read_table(rt.alloc(), &mut source).expect(&rt, "the table");
        are_one_table(&rt, &again, &table);
    }
}

#[test]
fn cut_to_each_length(rt: HostRuntime) {
    for file in [FILE, FIRST] {
        for len in 0..file.len() {
            let source = MemSource::new(beginning(&rt, file, len));
            is_refused(&rt, source, Fault::Truncated);
        }
    }
}

// The fault of a file whose byte at that place is wrong.
fn fault_at(place: usize) -> Fault {
    match place {
        0..8 => Fault::Magic,
        8..12 => Fault::SetByte,
        12 => Fault::ProfileByte,
        13..21 => Fault::ClassCount,
        _ => Fault::Digest,
    }
}

// The first format has no byte of a profile.
#[test]
fn each_byte_turned(rt: HostRuntime) {
    for place in 0..FILE.len() {
        let source = MemSource::new(turned(&rt, FILE, place));
        is_refused(&rt, source, fault_at(place));
    }
    for place in 0..FIRST.len() {
        let second = if place < 12 { place } else { place + 1 };
        let source = MemSource::new(turned(&rt, FIRST, place));
        is_refused(&rt, source, fault_at(second));
    }
}

#[test]
fn a_source_that_fails_at_each_place(rt: HostRuntime) {
    for file in [FILE, FIRST] {
        for count in 0..=file.len() {
            let whole = beginning(&rt, file, file.len());
            let source = MemSource::new(whole).failing_after(count);
            is_refused(&rt, source, Fault::Io(count as u64));
        }
    }
}

#[test]
fn a_sink_that_fails_at_each_place(rt: HostRuntime) {
    let table = table(&rt);
    for count in 0..FILE.len() {
        let mut sink = MemSink::new(rt.alloc()).in_pieces(7).failing_after(count);
        assert!(rt; write_table(rt.alloc(), &table, &mut sink) == Err(Fault::Io(count as u64)));
        assert!(rt; sink.failed() && Some(sink.bytes()) == FILE.get(..count));
    }
}

#[test]
fn a_sink_that_fails_to_flush(rt: HostRuntime) {
    let mut sink = MemSink::new(rt.alloc()).failing_at_flush();
    assert!(rt; write_table(rt.alloc(), &table(&rt), &mut sink) == Err(Fault::Io(161)));
    assert!(rt; sink.bytes() == FILE);
}
