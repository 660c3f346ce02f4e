// A source of bytes in memory, for tests: in pieces of a set length, and failing where a test asks for it.
ghost use Rattle.std.specs.Prelude.{◌≡◌, ◌<◌, ◌≤◌, ◌+◌, ◌-◌, ◌^◌, ◌||◌, [], false, IfOk, OnErr, is_err, length, vec_len};
ghost use Rattle.dob_device.specs.Devices.{GivesFirst, Stream, after, broken, whole};

use crate::device::{Failed, PlacedSource, Source};

/// A source that gives bytes from memory.
#[derive(Drop)]
pub struct MemSource {
    bytes: Vec<u8>,
    start: usize,
    longest: usize,
    fails: bool,
    has_failed: bool,
    ghost inside: { start ≤ vec_len bytes },
    ghost moving: { 0 < longest },
}

impl MemSource {
    ghost use Rattle.dob_device.specs.Memory.{all_of, stream_of, cut};

    /// A source of those bytes, which never fails.
    pub fn new(bytes: Vec<u8>) -> MemSource
        ensures stream { stream_of result ≡ whole bytes.items }
        ensures all { all_of result ≡ whole bytes.items }
        ensures failed { result.has_failed ≡ false }
        ensures whole { result.longest ≡ 2 ^ 64 - 1 }
    {
        MemSource {
            bytes,
            start: 0,
            longest: usize::MAX,
            fails: false,
            has_failed: false,
        }
    }

    /// This source, now giving at most `longest` bytes in one call.
    pub fn in_pieces(self, longest: usize) -> MemSource
        requires { 0 < longest }
        ensures stream { stream_of result ≡ stream_of self }
        ensures all { all_of result ≡ all_of self }
        ensures failed { result.has_failed ≡ self.has_failed }
        ensures pieces { result.longest ≡ longest }
    {
        let MemSource {
            bytes,
            start,
            longest: _,
            fails,
            has_failed,
        } = self;
        MemSource {
            bytes,
            start,
            longest,
            fails,
            has_failed,
        }
    }

    /// This source, now failing in place of giving more than `count` bytes or, if there are exactly `count`, its
    /// end.
    pub fn failing_after(self, count: usize) -> MemSource
        ensures stream { stream_of result ≡ cut count (stream_of self) }
        ensures all { all_of result ≡ cut (self.start + count) (all_of self) }
        ensures failed { result.has_failed ≡ self.has_failed }
        ensures pieces { result.longest ≡ self.longest }
    {
        let MemSource {
            mut bytes,
            start,
            longest,
            fails,
            has_failed,
        } = self;
        if count > bytes.len() - start {
            return MemSource {
                bytes,
                start,
                longest,
                fails,
                has_failed,
            };
        }
        bytes.truncate(start + count);
        MemSource {
            bytes,
            start,
            longest,
            fails: true,
            has_failed,
        }
    }
}

impl Source for MemSource {
    ghost use Rattle.dob_device.specs.Memory.{all_of, longest_read, stream_of};

    ghost gives = { λ source stream. stream ≡ stream_of source };

    ghost shows = { λ source stream. stream ≡ all_of source };

    ghost has_failed = { λ source. source.has_failed };

    fn read(&mut self, room: &mut [u8]) -> Result<usize, Failed>
        ensures count { IfOk result (λ count. count ≡ longest_read self.old (length room.new)) }
        ensures within { IfOk result (λ count. count ≤ length room.new) }
        ensures given { (stream : Stream) → stream ≡ stream_of self.old
            → IfOk result (λ count. GivesFirst stream count room.new × (after count stream ≡ stream_of self.new)) }
        ensures broken { (stream : Stream) → stream ≡ stream_of self.old
            → OnErr result ((stream ≡ broken []) × (stream ≡ stream_of self.new)) }
        ensures shown { (stream : Stream) → stream ≡ all_of self.old → stream ≡ all_of self.new }
        ensures pieces { self.new.longest ≡ self.old.longest }
        ensures failed { self.new.has_failed ≡ (self.old.has_failed || is_err result) }
    {
        let left = self.bytes.len() - self.start;
        if left == 0 && self.fails {
            self.has_failed = true;
            return Err(Failed);
        }
        let count = left.min(self.longest).min(room.len());
        let end = self.start + count;
        room[..count].copy_from_slice(&self.bytes[self.start..end]);
        self.start = end;
        Ok(count)
    }

    fn failed(&self) -> bool {
        self.has_failed
    }
}

impl PlacedSource for MemSource {
    fn seek(&mut self, place: u64) -> Result<(), Failed> {
        self.start = self.bytes.len().min(place as usize);
        Ok(())
    }
}
