// A sink in memory, for tests: it takes pieces of a set length, and fails if a test asks for it.
ghost use Rattle.std.specs.Prelude.{◌≡◌, ◌<◌, ◌≤◌, ◌-◌, ◌^◌, ◌||◌, [], ◌∷◌, ◌++◌, None, Some, false, true};
ghost use Rattle.std.specs.Prelude.{IfOk, OnErr, OnOk, is_err, length, min, take};

use crate::device::{Failed, Sink};
use std::alloc::Global;

/// A sink that keeps its bytes in memory. Where no memory is left for them it fails.
#[derive(Drop)]
pub struct MemSink {
    bytes: Vec<u8>,
    flushes: Vec<usize>,
    longest: usize,
    room: usize,
    fails_at_flush: bool,
    has_failed: bool,
    ghost moving: { 0 < longest },
}

impl MemSink {
    /// An empty sink, which fails only for lack of memory.
    pub fn new(alloc: Global) -> MemSink
        ensures bytes { result.bytes.items ≡ [] }
        ensures flushes { result.flushes.items ≡ [] }
        ensures failed { result.has_failed ≡ false }
        ensures whole { result.longest ≡ 2 ^ 64 - 1 }
        ensures wide { result.room ≡ 2 ^ 64 - 1 }
        ensures working { result.fails_at_flush ≡ false }
    {
        MemSink {
            bytes: Vec::new(alloc),
            flushes: Vec::new(alloc),
            longest: usize::MAX,
            room: usize::MAX,
            fails_at_flush: false,
            has_failed: false,
        }
    }

    /// This sink, now taking at most `longest` bytes in one call.
    pub fn in_pieces(mut self, longest: usize) -> MemSink
        requires { 0 < longest }
        ensures bytes { result.bytes.items ≡ self.bytes.items }
        ensures flushes { result.flushes.items ≡ self.flushes.items }
        ensures failed { result.has_failed ≡ self.has_failed }
        ensures pieces { result.longest ≡ longest }
        ensures room { result.room ≡ self.room }
        ensures place { result.fails_at_flush ≡ self.fails_at_flush }
    {
        self.longest = longest;
        self
    }

    /// This sink, now failing in place of taking more than that many bytes from here on.
    pub fn failing_after(mut self, room: usize) -> MemSink
        ensures bytes { result.bytes.items ≡ self.bytes.items }
        ensures flushes { result.flushes.items ≡ self.flushes.items }
        ensures failed { result.has_failed ≡ self.has_failed }
        ensures pieces { result.longest ≡ self.longest }
        ensures room { result.room ≡ room }
        ensures place { result.fails_at_flush ≡ self.fails_at_flush }
    {
        self.room = room;
        self
    }

    /// This sink, now failing at each flush.
    pub fn failing_at_flush(mut self) -> MemSink
        ensures bytes { result.bytes.items ≡ self.bytes.items }
        ensures flushes { result.flushes.items ≡ self.flushes.items }
        ensures failed { result.has_failed ≡ self.has_failed }
        ensures pieces { result.longest ≡ self.longest }
        ensures room { result.room ≡ self.room }
        ensures place { result.fails_at_flush ≡ true }
    {
        self.fails_at_flush = true;
        self
    }

    /// The bytes that it has received.
    pub fn bytes(&self) -> &[u8]
        ensures { result.now ≡ self.now.bytes.items }
    {
        &self.bytes
    }

    /// After how many bytes it was flushed, each time.
    pub fn flushes(&self) -> &[usize]
        ensures { result.now ≡ self.now.flushes.items }
    {
        &self.flushes
    }

    /// The bytes that it has received, when the sink isn't needed any more.
    pub fn into_bytes(self) -> Vec<u8>
        ensures { result.items ≡ self.bytes.items }
    {
        self.bytes
    }
}

impl Sink for MemSink {
    ghost use Rattle.dob_device.specs.Memory.{longest_piece};

    ghost state = { λ sink. record { received = Some sink.bytes.items; flushes = Some sink.flushes.items; has_failed = sink.has_failed; writer = None } };

    fn write(&mut self, piece: &[u8]) -> Result<usize, Failed>
        ensures count { IfOk result (λ count. count ≡ longest_piece self.old (length piece.now)) }
        ensures some { IfOk result (λ count. 0 < length piece.now → 0 < count) }
        ensures bytes { IfOk result (λ count. self.new.bytes.items ≡ self.old.bytes.items ++ take count piece.now) }
        ensures room { IfOk result (λ count. self.new.room ≡ self.old.room - count) }
        ensures unchanged { OnErr result ((self.new.bytes.items ≡ self.old.bytes.items) × (self.new.room ≡ self.old.room)) }
        ensures flushes { self.new.flushes.items ≡ self.old.flushes.items }
        ensures pieces { self.new.longest ≡ self.old.longest }
        ensures place { self.new.fails_at_flush ≡ self.old.fails_at_flush }
        ensures failed { self.new.has_failed ≡ (self.old.has_failed || is_err result) }
    {
        let count = piece.len().min(self.longest).min(self.room);
        if count == 0 && !piece.is_empty() {
            self.has_failed = true;
            return Err(Failed);
        }
        if self.bytes.extend_from_slice(&piece[..count]).is_err() {
            self.has_failed = true;
            return Err(Failed);
        }
        self.room -= count;
        Ok(count)
    }

    fn flush(&mut self) -> Result<(), Failed>
        ensures flushed { OnOk result ((self.old.fails_at_flush ≡ false)
            × (self.new.flushes.items ≡ self.old.flushes.items ++ length self.old.bytes.items ∷ [])) }
        ensures unflushed { OnErr result (self.new.flushes.items ≡ self.old.flushes.items) }
        ensures bytes { self.new.bytes.items ≡ self.old.bytes.items }
        ensures pieces { self.new.longest ≡ self.old.longest }
        ensures room { self.new.room ≡ self.old.room }
        ensures place { self.new.fails_at_flush ≡ self.old.fails_at_flush }
        ensures failed { self.new.has_failed ≡ (self.old.has_failed || is_err result) }
    {
        if self.fails_at_flush || self.flushes.push(self.bytes.len()).is_err() {
            self.has_failed = true;
            return Err(Failed);
        }
        Ok(())
    }

    fn failed(&self) -> bool {
        self.has_failed
    }
}
