// Devices over the readers and writers of the standard library.
ghost use Rattle.std.specs.Prelude.{◌≡◌, ◌<◌, ◌≤◌, IfOk, None, Some, false, length};
ghost use Rattle.std.specs.Io.KnownBytes.{Keeps, WriteAppends};

use crate::device::{Failed, PlacedSource, Sink, Source};
use std::io::{Read, Seek, SeekFrom, Write};

/// A reader or a writer of the standard library as a device. Of a reader's bytes nothing is known, and of a writer's
/// exactly what the writer says. Every error is a failure, one that asks for another try included, and so is a `write`
/// that takes nothing.
#[derive(Drop)]
pub struct Std<T> {
    inner: T,
    has_failed: bool,
}

impl<T> Std<T> {
    /// The device over it, which hasn't failed.
    pub fn new(inner: T) -> Std<T>
        ensures failed { result.has_failed ≡ false }
        ensures inner { result.inner ≡ inner }
    {
        Std {
            inner,
            has_failed: false,
        }
    }

    /// What it was made over.
    pub fn into_inner(self) -> T
        ensures { result ≡ self.inner }
    {
        self.inner
    }
}

impl<T: Read> Source for Std<T> {
    ghost gives = { λ _ _. ⊥ };

    ghost has_failed = { λ device. device.has_failed };

    fn read(&mut self, room: &mut [u8]) -> Result<usize, Failed> {
        match self.inner.read(room) {
            Ok(count) => Ok(count),
            Err(_) => {
                self.has_failed = true;
                Err(Failed)
            }
        }
    }

    fn failed(&self) -> bool {
        self.has_failed
    }
}

impl<T: Read + Seek> PlacedSource for Std<T> {
    fn seek(&mut self, place: u64) -> Result<(), Failed> {
        match self.inner.seek(SeekFrom::Start(place)) {
            Ok(_) => Ok(()),
            Err(_) => {
                self.has_failed = true;
                Err(Failed)
            }
        }
    }
}

impl<T: Write> Sink for Std<T> {
    ghost state = { λ device. record { received = T.contents device.inner; flushes = None; has_failed = device.has_failed; writer = None } };

    fn write(&mut self, piece: &[u8]) -> Result<usize, Failed> {
        let result = write_some(&mut self.inner, piece);
        self.has_failed |= result.is_err();
        result
    }

    fn flush(&mut self) -> Result<(), Failed> {
        let result = flush_all(&mut self.inner);
        self.has_failed |= result.is_err();
        result
    }

    fn failed(&self) -> bool {
        self.has_failed
    }
}

/// A writer of the standard library that is lent, as a device: it does what `Std` does, and gives the writer back with
/// what it has written.
#[derive(Drop)]
pub struct Lent<'a, W> {
    writer: &'a mut W,
    has_failed: bool,
}

impl<'a, W> Lent<'a, W> {
    /// The device over it, which hasn't failed.
    pub fn new(writer: &'a mut W) -> Lent<'a, W>
        ensures failed { result.has_failed ≡ false }
        ensures same { result.writer.ghost_name ≡ writer.entry.ghost_name }
        ensures writer { result.writer.now ≡ writer.old }
    {
        Lent {
            writer,
            has_failed: false,
        }
    }

    /// The writer that it was made over.
    pub fn into_inner(self) -> &'a mut W
        ensures same { result.ghost_name ≡ self.entry.writer.ghost_name }
        ensures writer { result.now ≡ self.entry.writer.now }
    {
        self.writer
    }
}

impl<W: Write> Sink for Lent<'_, W> {
    ghost state = { λ device. record {
      received = W.contents device.writer.now;
      flushes = None;
      has_failed = device.has_failed;
      writer = Some device.writer.ghost_name;
    } };

    fn write(&mut self, piece: &[u8]) -> Result<usize, Failed> {
        let result = write_some(self.writer, piece);
        self.has_failed |= result.is_err();
        result
    }

    fn flush(&mut self) -> Result<(), Failed> {
        let result = flush_all(self.writer);
        self.has_failed |= result.is_err();
        result
    }

    fn failed(&self) -> bool {
        self.has_failed
    }
}

// One call of the writer's `write`.
fn write_some<W: Write>(writer: &mut W, piece: &[u8]) -> Result<usize, Failed>
    ensures within { IfOk result (λ count. count ≤ length piece.now) }
    ensures some { IfOk result (λ count. 0 < length piece.now → 0 < count) }
    ensures bytes { WriteAppends (W.contents writer.old) (W.contents writer.new) result piece.now }
{
    match writer.write(piece) {
        Ok(count) if count > 0 || piece.is_empty() => Ok(count),
        Ok(_) | Err(_) => Err(Failed),
    }
}

// One call of the writer's `flush`.
fn flush_all<W: Write>(writer: &mut W) -> Result<(), Failed>
    ensures { Keeps (W.contents writer.old) (W.contents writer.new) }
{
    match writer.flush() {
        Ok(()) => Ok(()),
        Err(_) => Err(Failed),
    }
}
