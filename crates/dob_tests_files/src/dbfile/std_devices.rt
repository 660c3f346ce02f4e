// Readers and writers of the standard library as devices: each error, one that asks for another try, and a write that takes nothing.
ghost use Rattle.std.specs.Prelude.{◌≡◌, IfOk};

use super::files::{FILE, beginning, table};
use dob_dbfile::{Failed, Fault, Lent, Sink, Source, Std, read_table, write_table};
use dob_value::Table;
use std::io::{self, ErrorKind, Read, Write};
use std::process::Abort;

// A reader or a writer that moves at most that many bytes in one call. Where it has moved as many as it has room for,
// it answers the error, or, if there is none, that it moved nothing.
#[derive(Drop)]
struct Shaky {
    bytes: Vec<u8>,
    longest: usize,
    room: usize,
    error: Option<ErrorKind>,
}

impl Shaky {
    fn new(bytes: Vec<u8>, longest: usize, room: usize, error: Option<ErrorKind>) -> Shaky {
        Shaky {
            bytes,
            longest,
            room,
            error,
        }
    }

    // What it answers where it has no room.
    fn stop(&self) -> io::Result<usize>
        ensures { IfOk result (λ count. count ≡ 0) }
    {
        match self.error {
            Some(error) => Err(error.into()),
            None => Ok(0),
        }
    }
}

impl Write for Shaky {
    fn write(&mut self, bytes: &[u8]) -> io::Result<usize> {
        let count = bytes.len().min(self.longest).min(self.room);
        if count == 0 {
            return self.stop();
        }
        self.bytes.extend_from_slice(&bytes[..count])?;
        self.room -= count;
        Ok(count)
    }

    fn flush(&mut self) -> io::Result<()> {
        if self.room == 0 {
            self.stop()?;
        }
        Ok(())
    }
}

impl Read for Shaky {
    fn read(&mut self, room: &mut [u8]) -> io::Result<usize> {
        let count = room
            .len()
            .min(self.longest)
            .min(self.room)
            .min(self.bytes.len());
        if count == 0 {
            return self.stop();
        }
        room[..count].copy_from_slice(&self.bytes[..count]);
        self.bytes.drain(..count);
        self.room -= count;
        Ok(count)
    }
}

// What stops a writer: an error, one that asks for another try, and that it takes nothing.
const STOPS: [Option<ErrorKind>; 3] = [
    Some(ErrorKind::StorageFull),
    Some(ErrorKind::Interrupted),
    None,
];

// Written and read so many bytes at a time, the file and its table are the same.
#[test]
fn devices_of_short_pieces(rt: HostRuntime) {
    let table = table(&rt);
    for longest in 1..9 {
        let mut sink = Std::new(Shaky::new(Vec::new(rt.alloc()), longest, usize::MAX, None));
        assert!(rt; write_table(rt.alloc(), &table, &mut sink).is_ok());
        let bytes = sink.into_inner().bytes;
        assert!(rt; bytes.as_slice() == FILE);
        let mut source = Std::new(Shaky::new(bytes, longest, usize::MAX, None));
        assert!(rt; read_table(rt.alloc(), &mut source).is_ok() && !Source::failed(&source));
    }
}

// A writer that takes so many bytes at a time stops after each place: what it took is a beginning of the file.
fn stops_after_each_place(
    rt: &(impl Abort + AllocGlobal),
    table: &Table,
    longest: usize,
    stop: Option<ErrorKind>,
) {
    for count in 0..FILE.len() {
        let mut sink = Std::new(Shaky::new(Vec::new(rt.alloc()), longest, count, stop));
        assert!(rt; write_table(rt.alloc(), table, &mut sink) == Err(Fault::Io(count as u64)));
        assert!(rt; Sink::failed(&sink));
        assert!(rt; Some(sink.into_inner().bytes.as_slice()) == FILE.get(..count));
    }
}

#[test]
fn a_writer_that_stops(rt: HostRuntime) {
    let table = table(&rt);
    for stop in STOPS {
        for longest in 1..9 {
            stops_after_each_place(&rt, &table, longest, stop);
        }
    }
}

#[test]
fn a_writer_that_cannot_be_flushed(rt: HostRuntime) {
    let error = Some(ErrorKind::Interrupted);
    let mut sink = Std::new(Shaky::new(Vec::new(rt.alloc()), 7, FILE.len(), error));
    assert!(rt; write_table(rt.alloc(), &table(&rt), &mut sink) == Err(Fault::Io(161)));
    assert!(rt; Sink::failed(&sink));
}

// So does a reader that gives so many at a time.
fn fails_at_each_place(rt: &(impl Abort + AllocGlobal), longest: usize, error: ErrorKind) {
    for count in 0..=FILE.len() {
        let whole = beginning(rt, FILE, FILE.len());
        let mut source = Std::new(Shaky::new(whole, longest, count, Some(error)));
        let read = read_table(rt.alloc(), &mut source);
        assert!(rt; read.err() == Some(Fault::Io(count as u64)));
        assert!(rt; Source::failed(&source));
    }
}

#[test]
fn a_reader_that_stops(rt: HostRuntime) {
    for error in [ErrorKind::Other, ErrorKind::Interrupted] {
        for longest in 1..9 {
            fails_at_each_place(&rt, longest, error);
        }
    }
}

// A call after a failure is made as any other, and the device stays failed.
#[test]
fn a_failure_is_kept_in_mind(rt: HostRuntime) {
    let bytes = vec![in rt.alloc(); 1u8, 2].expect(&rt, "memory");
    let mut device = Std::new(Shaky::new(bytes, 1, 1, Some(ErrorKind::Interrupted)));
    let mut room = [0; 2];
    assert!(rt; device.read(&mut room) == Ok(1));
    assert!(rt; !Source::failed(&device));
    assert!(rt; device.read(&mut room) == Err(Failed));
    assert!(rt; device.write(&[]) == Err(Failed));
    assert!(rt; Source::failed(&device));
    assert!(rt; Sink::failed(&device));
}

// A writer that takes all it is given, and counts its calls. The first call fails, and no other.
#[derive(Drop)]
struct Once {
    bytes: Vec<u8>,
    calls: usize,
}

impl Once {
    // Counts a call, and fails if it is the first.
    fn begin(&mut self) -> io::Result<()> {
        self.calls = self.calls.wrapping_add(1);
        if self.calls == 1 {
            return Err(ErrorKind::Interrupted.into());
        }
        Ok(())
    }
}

impl Write for Once {
    fn write(&mut self, bytes: &[u8]) -> io::Result<usize> {
        self.begin()?;
        self.bytes.extend_from_slice(bytes)?;
        Ok(bytes.len())
    }

    fn flush(&mut self) -> io::Result<()> {
        self.begin()
    }
}

// How many bytes a long piece has.
const LONG: usize = 100_000;

// Each call of the sink is one of what is behind it: the first fails, and the later ones are made and work, a long piece whole.
fn each_call_is_one<S: Sink>(rt: &(impl Abort + AllocGlobal), sink: &mut S) {
    let piece = vec![in rt.alloc(); 7u8; LONG].expect(rt, "memory");
    assert!(rt; sink.write(b"ab").is_err() && sink.failed());
    assert!(rt; sink.write(&piece) == Ok(LONG));
    assert!(rt; sink.flush().is_ok());
    assert!(rt; sink.write(b"c") == Ok(1) && sink.failed());
}

// What is behind the sink after that.
fn has_been_called(rt: &impl Abort, device: &Once) {
    assert!(rt; device.calls == 4 && device.bytes.len() == LONG + 1);
    assert!(rt; device.bytes.first() == Some(&7) && device.bytes.last() == Some(&b'c'));
}

#[test]
fn each_call_is_made_once(rt: HostRuntime) {
    let bytes = Vec::new(rt.alloc());
    let mut sink = Std::new(Once { bytes, calls: 0 });
    each_call_is_one(&rt, &mut sink);
    has_been_called(&rt, &sink.into_inner());
    let bytes = Vec::new(rt.alloc());
    let mut writer = Once { bytes, calls: 0 };
    each_call_is_one(&rt, &mut Lent::new(&mut writer));
    has_been_called(&rt, &writer);
}
