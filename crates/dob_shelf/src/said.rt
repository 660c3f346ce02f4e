// What devices say when they fail: which one it was, and the system's reason.
ghost use Rattle.std.specs.Prelude.{◌≡◌};
ghost use Rattle.dob_shelf.specs.Said.{said_after};

use std::alloc::{AllocError, Global};
use std::cell::Cell;
use std::fs::OpenFile;
use std::io::{self, Read, Seek, SeekFrom, Write};

/// Which device it is.
#[derive(Clone, Copy)]
pub enum Device {
    /// A file.
    File,
    /// Standard input.
    Input,
    /// Standard output.
    Output,
}

// Which device failed, and why.
#[derive(Clone, Copy)]
struct Said {
    place: Device,
    reason: io::Error,
}

impl Said {
    // Where it failed, and why; a file is called by that name.
    fn text(self, alloc: Global, file: &str) -> Result<String, AllocError> {
        let reason = self.reason;
        match self.place {
            Device::File => format!(in alloc; "{file}: {reason}"),
            Device::Input => format!(in alloc; "standard input: {reason}"),
            Device::Output => format!(in alloc; "standard output: {reason}"),
        }
    }
}

// What was said last, where that was said before this answer of that device.
fn said_after<X>(before: Option<Said>, place: Device, answer: &io::Result<X>) -> Option<Said>
    ensures { result ≡ said_after before place answer.now }
{
    match answer {
        Ok(_) => before,
        Err(reason) => {
            let reason = *reason;
            Some(Said { place, reason })
        }
    }
}

/// What the device said that failed last. Devices and a shelf that share a note leave it there.
#[derive(Drop)]
pub struct LastError {
    said: Cell<Option<Said>>,
}

impl LastError {
    /// A note in which nothing was left.
    pub fn new() -> LastError {
        LastError {
            said: Cell::new(None),
        }
    }

    /// Leaves why that device failed, if it did.
    pub(crate) fn record_error<X>(&self, place: Device, answer: &io::Result<X>) {
        self.said.set(said_after(self.said.get(), place, answer));
    }

    /// What was left there last, as text: the device, a file by that name, and its reason. `None` if nothing was.
    pub(crate) fn text(&self, alloc: Global, file: &str) -> Result<Option<String>, AllocError> {
        match self.said.get() {
            Some(said) => Ok(Some(said.text(alloc, file)?)),
            None => Ok(None),
        }
    }
}

/// A reader or a writer that leaves in a note why a call of it failed.
#[derive(Drop)]
pub struct ErrorRecorder<'a, T> {
    inner: T,
    place: Device,
    note: &'a LastError,
}

impl<'a, T> ErrorRecorder<'a, T> {
    /// The device of that place, over it.
    pub fn new(inner: T, place: Device, note: &'a LastError) -> ErrorRecorder<'a, T> {
        ErrorRecorder { inner, place, note }
    }

    /// What it was made over.
    pub(crate) fn inner(&self) -> &T {
        &self.inner
    }
}

impl<T: OpenFile> ErrorRecorder<'_, T> {
    /// Takes away the bytes of a regular file; a pipe and a device have none.
    pub(crate) fn clear(&self) -> io::Result<()> {
        let cleared = clear_file(&self.inner);
        self.note.record_error(self.place, &cleared);
        cleared
    }
}

// Empties the file, where it is one and no device.
fn clear_file(file: &impl OpenFile) -> io::Result<()> {
    if file.metadata()?.is_file() {
        file.set_len(0)
    } else {
        Ok(())
    }
}

impl<T: Read> Read for ErrorRecorder<'_, T> {
    fn read(&mut self, room: &mut [u8]) -> io::Result<usize> {
        let read = self.inner.read(room);
        self.note.record_error(self.place, &read);
        read
    }
}

impl<T: Seek> Seek for ErrorRecorder<'_, T> {
    fn seek(&mut self, place: SeekFrom) -> io::Result<u64> {
        let found = self.inner.seek(place);
        self.note.record_error(self.place, &found);
        found
    }
}

impl<T: Write> Write for ErrorRecorder<'_, T> {
    fn write(&mut self, bytes: &[u8]) -> io::Result<usize> {
        let written = self.inner.write(bytes);
        self.note.record_error(self.place, &written);
        written
    }

    fn flush(&mut self) -> io::Result<()> {
        let flushed = self.inner.flush();
        self.note.record_error(self.place, &flushed);
        flushed
    }
}
