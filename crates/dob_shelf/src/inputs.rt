// The bytes of a source, as many as are wanted.
ghost use Rattle.std.specs.Prelude.{◌≡◌, ◌⊎◌, ◌<◌, ◌||◌, List, ℕ, MatchResult, length, take};
ghost use Rattle.dob_device.specs.Devices.{whole};
ghost use Rattle.dob_shelf.specs.Shelves.{is_failed};

use crate::shelf::ShelfFault;
use dob_device::{Failed, Source};
use std::alloc::Global;

// How many bytes are asked for at once.
const ROOM: usize = 4096;

/// The bytes that the source still has, up to its end, which may be none; or, where they are more than `most`, the first of them, more than `most` too.
///
/// # Errors
///
/// The source failed before that; or memory for the bytes was refused.
pub fn read_up_to<R: Source>(
    alloc: Global,
    source: &mut R,
    most: u64,
) -> Result<Vec<u8>, ShelfFault>
    ensures given { (bytes : List ℕ) → R.gives source.old (whole bytes)
        → MatchResult result (λ read. (read.items ≡ bytes) ⊎ ((most < length read.items) × (read.items ≡ take (length read.items) bytes)))
        (λ fault. fault ≡ ShelfFault.Memory) }
    ensures failed { R.has_failed source.new ≡ (R.has_failed source.old || is_failed result) }
{
    let mut bytes = Vec::new(alloc);
    let mut room = [0; ROOM];
    while bytes.len() as u64 <= most {
        let count = match source.read(&mut room) {
            Ok(count) => count,
            Err(Failed) => return Err(ShelfFault::Failed),
        };
        if count == 0 {
            return Ok(bytes);
        }
        bytes.extend_from_slice(&room[..count])?;
    }
    Ok(bytes)
}
