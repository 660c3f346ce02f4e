// A list of entries, however they are laid out: its entries by their places, and that of a position's class.
ghost use Rattle.std.specs.Prelude.{◌≡◌, ◌<◌, ◌≤◌, List, length, IfSome, IfNone, MatchOption};
ghost use Rattle.dob_pieces.specs.declared.profile.Family.{Family as AnyFamily};
ghost use Rattle.dob_moves.specs.Shown.{setup_on};
ghost use Rattle.dob_rank.specs.Families.{IsPositionOf, classes_of};
ghost use Rattle.dob_certificate.specs.declared.entry.Entry.{Entry as AnyEntry};
ghost use Rattle.dob_certificate.specs.Ascending.{listed_entry};
ghost use Rattle.dob_certificate.specs.Listed.{HasPlies, IsEntryFor, IsEntryOf};

use crate::entries::Entries;
use crate::entry::Entry;
use dob_classes::Classes;
use dob_moves::PositionBoard;
use dob_pieces::Family;
use dob_value::{class_of, representative_of};

/// A list of entries, which are found by their places and by the class of a position.
pub trait Lookup {
    // By `stands list family` its entries are for classes of that family.
    ghost stands: { Self → AnyFamily → Type 0 };

    // The list that contracts see: its entries in their order, ascending by class.
    ghost entries_of: { Self → List AnyEntry };

    /// The plies of the entry of the position's class, or `None` if the list has none.
    fn plies_for(&self, family: Family, position: &PositionBoard) -> Option<u16>
        requires stands { stands self.now family }
        requires member { IsPositionOf family (setup_on position.now.board) }
        ensures { MatchOption result
            ((entry : AnyEntry) → ¬ IsEntryFor family (entries_of self.now) (setup_on position.now.board) entry)
            (λ plies. HasPlies family (entries_of self.now) (setup_on position.now.board) plies) };

    /// How many entries there are.
    fn count(&self) -> usize
        ensures { result ≡ length (entries_of self.now) };

    /// The representative of the class of the entry at that place, and the entry's plies; or `None` if the family has no such class.
    fn entry_at(&self, family: Family, place: usize) -> Option<(PositionBoard, u16)>
        requires stands { stands self.now family }
        requires within { place < length (entries_of self.now) }
        ensures { MatchOption result
            (classes_of family ≤ (listed_entry (entries_of self.now) place).class)
            (λ found. IsEntryOf family (listed_entry (entries_of self.now) place) (setup_on found.0.board) found.1) };
}

/// Entries by ascending class, with the classes of their family.
#[derive(Clone, Copy)]
pub struct ByClass<'a> {
    pub classes: &'a Classes,
    pub entries: &'a Entries,
}

impl Lookup for ByClass<'_> {
    ghost stands = { λ list family. list.classes.now.family ≡ family };

    ghost entries_of = { λ list. list.entries.now };

    fn plies_for(&self, _family: Family, position: &PositionBoard) -> Option<u16> {
        match entry_for(self.classes, self.entries, position) {
            Some(entry) => Some(entry.plies),
            None => None,
        }
    }

    fn count(&self) -> usize {
        self.entries.as_slice().len()
    }

    fn entry_at(&self, _family: Family, place: usize) -> Option<(PositionBoard, u16)> {
        let entry = self.entries.as_slice()[place];
        let class = entry.class as u64;
        if class < self.classes.class_count() {
            let position = representative_of(self.classes, class);
            Some((position, entry.plies))
        } else {
            None
        }
    }
}

// The entry of the position's class, or None if the list has none.
fn entry_for(classes: &Classes, entries: &Entries, position: &PositionBoard) -> Option<Entry>
    requires { IsPositionOf classes.now.family (setup_on position.now.board) }
    ensures some { IfSome result (IsEntryFor classes.now.family entries.now (setup_on position.now.board)) }
    ensures none { IfNone result ((entry : Entry) → ¬ IsEntryFor classes.now.family entries.now (setup_on position.now.board) entry) }
    ensures alone { IfSome result (λ entry. (other : Entry) → IsEntryFor classes.now.family entries.now (setup_on position.now.board) other → entry ≡ other) }
{
    entries.find(class_of(classes, position))
}
