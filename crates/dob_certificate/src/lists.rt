// Whether a list of a certificate supports its entries.
ghost use Rattle.std.specs.Prelude.{◌<◌, length};
ghost use Rattle.dob_certificate.specs.Ascending.{listed_entry};
ghost use Rattle.dob_certificate.specs.Lists.{IsFirstBroken, Supports};
ghost use Rattle.dob_certificate.specs.Refusals.{IsEntryVerdict, IsListVerdict};

use crate::asking::supports_at;
use crate::entries::Entries;
use crate::list_kind::ListKind;
use crate::lookup::{ByClass, Lookup};
use crate::refusal::Refusal;
use dob_classes::Classes;
use dob_pieces::Family;

/// The place of the first entry that a list of that kind doesn't support, or `None` if it supports all.
pub fn first_broken<L: Lookup>(family: Family, list: &L, kind: ListKind) -> Option<usize>
    requires { L.stands list.now family }
    ensures { IsFirstBroken kind family (L.entries_of list.now) result }
{
    for place in 0..list.count() {
        if !supports_at(family, list, kind, place) {
            return Some(place);
        }
    }
    None
}

/// Passes the entry at that place of a list of that kind exactly if the list supports it.
///
/// # Errors
///
/// `Unsupported` with the entry's class.
pub fn check_entry(
    classes: &Classes,
    kind: ListKind,
    entries: &Entries,
    place: usize,
) -> Result<(), Refusal>
    requires { place < length entries.now }
    ensures { IsEntryVerdict (Supports kind classes.now.family entries.now) (listed_entry entries.now place) result }
{
    let list = ByClass { classes, entries };
    if supports_at(classes.family, &list, kind, place) {
        Ok(())
    } else {
        Err(Refusal::Unsupported(entries.as_slice()[place].class))
    }
}

/// Passes a list of that kind exactly if it supports each of its entries.
///
/// # Errors
///
/// `Unsupported` with the class of the first entry that it doesn't support.
pub fn check_list(classes: &Classes, kind: ListKind, entries: &Entries) -> Result<(), Refusal>
    ensures { IsListVerdict (Supports kind classes.now.family entries.now) entries.now result }
{
    let list = ByClass { classes, entries };
    match first_broken(classes.family, &list, kind) {
        Some(place) => Err(Refusal::Unsupported(entries.as_slice()[place].class)),
        None => Ok(()),
    }
}
