// What is typed at the program in a test.
use std::io::{self, Read};

/// A standard input of those bytes, in pieces of a greatest length.
#[derive(Drop)]
pub(crate) struct Typed {
    pub(crate) left: &'static [u8],
    pub(crate) longest: usize,
}

/// One with nothing in it.
pub(crate) fn silent() -> Typed {
    Typed {
        left: b"",
        longest: 0,
    }
}

impl Read for Typed {
    fn read(&mut self, room: &mut [u8]) -> io::Result<usize> {
        let count = room.len().min(self.longest).min(self.left.len());
        room[..count].copy_from_slice(&self.left[..count]);
        self.left = &self.left[count..];
        Ok(count)
    }
}
