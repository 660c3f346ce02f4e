// Entries as they stand in a file.
ghost use Rattle.std.specs.Prelude.{◌≡◌, ◌<◌, ◌≤◌, ◌++◌, ◌^◌, length, IfOk, OnOk};
ghost use Rattle.dob_certificate.specs.Ascending.{AreAscending};
ghost use Rattle.dob_certfile.specs.Reading.{Gives, MayGive, entry_at, entries_at, plies_at};

use crate::defect::{Defect, ReadFault};
use crate::numbers::{byte_of, number_of};
use dob_certificate::{EVER, Entry, ListKind};
use std::alloc::Global;

/// How many bytes a number has after its first, at most.
pub(crate) const MORE_BYTES: u32 = 4;

// The plies of a byte.
//
// # Errors
//
// `EntryPlies`.
fn plies_at(kind: ListKind, byte: u8) -> Result<u16, Defect>
    ensures { Gives (λ plies. plies) result (plies_at kind byte) }
{
    match kind {
        ListKind::Lost if byte < 255 => Ok(byte as u16),
        ListKind::Lost => Err(Defect::EntryPlies),
        ListKind::Held if byte < 255 => Ok(byte as u16),
        ListKind::Held => Ok(EVER),
    }
}

// The entry of such a list that stands in the first bytes, and the bytes after it. Its class is the least or above, and there are `classes` classes.
//
// # Errors
//
// `Truncated`, `EntryNumber`, `EntryOrder`, `EntryClass`, `EntryPlies`.
#[tactic(auto, unfolding(crate::specs::Reading::entry_at))]
fn entry_of(
    kind: ListKind,
    bytes: &[u8],
    least: u64,
    classes: u64,
) -> Result<(Entry, &[u8]), Defect>
    requires few { classes < 2 ^ 31 }
    requires below { least ≤ classes }
    ensures read { Gives (λ x. (x.0, x.1.now)) result (entry_at kind classes least bytes.now) }
    ensures within { IfOk result (λ x. x.0.class < classes) }
{
    let (number, rest) = number_of(bytes, MORE_BYTES)?;
    if number == 0 {
        return Err(Defect::EntryOrder);
    }
    if least + number > classes {
        return Err(Defect::EntryClass);
    }
    let (byte, rest) = byte_of(rest)?;
    let class = (least + number - 1) as u32;
    let plies = plies_at(kind, byte)?;
    Ok((Entry { class, plies }, rest))
}

/// `count` entries of such a list in ascending order, and the bytes after them.
///
/// # Errors
///
/// Those of an entry, and `Memory`.
pub(crate) fn entries_of(
    alloc: Global,
    kind: ListKind,
    bytes: &[u8],
    count: u32,
    classes: u64,
) -> Result<(Vec<Entry>, &[u8]), ReadFault>
    requires { classes < 2 ^ 31 }
    ensures read { MayGive (λ x. (x.0.items, x.1.now)) result (entries_at kind classes 0 count bytes.now) }
    ensures ascending { IfOk result (λ x. AreAscending x.0.items) }
{
    let mut entries = Vec::new(alloc);
    let mut rest = bytes;
    let mut least = 0;
    for _ in 0..count {
        let (entry, after) = entry_of(kind, rest, least, classes)?;
        least = entry.class as u64 + 1;
        entries.push(entry)?;
        rest = after;
    }
    Ok((entries, rest))
}
