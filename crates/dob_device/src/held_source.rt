// A source over bytes that are held elsewhere.
ghost use Rattle.std.specs.Prelude.{◌≡◌, false};
ghost use Rattle.dob_device.specs.Devices.{whole};

use crate::device::{Failed, Source};

/// A source that gives those bytes, which it borrows, and then its end. It never fails.
#[derive(Drop)]
pub struct HeldSource<'a> {
    bytes: &'a [u8],
}

impl<'a> HeldSource<'a> {
    /// A source of those bytes.
    pub fn new(bytes: &'a [u8]) -> HeldSource<'a>
        ensures { whole result.bytes.now ≡ whole bytes.now }
    {
        HeldSource { bytes }
    }
}

impl Source for HeldSource<'_> {
    ghost gives = { λ source stream. stream ≡ whole source.bytes.now };

    ghost has_failed = { λ _. false };

    fn read(&mut self, room: &mut [u8]) -> Result<usize, Failed> {
        let count = self.bytes.len().min(room.len());
        room[..count].copy_from_slice(&self.bytes[..count]);
        self.bytes = &self.bytes[count..];
        Ok(count)
    }

    fn failed(&self) -> bool {
        false
    }
}
