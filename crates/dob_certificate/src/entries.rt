// Entries by ascending class, so that each class has one at most.
ghost use Rattle.std.specs.Prelude.{◌≡◌, ◌≢◌, [], Contains, IfSome, IfNone, IsSome, IsTrue, ◌↔◌};
ghost use Rattle.dob_certificate.specs.Ascending.{AreAscending};

use crate::entry::Entry;
use std::alloc::Global;
use std::marker::Model;

/// Entries whose classes ascend. Contracts see the list of the entries.
#[derive(Drop)]
pub struct Entries {
    entries: Vec<Entry>,
}

impl Model for Entries {
    ghost use Rattle.std.specs.Prelude.{List};
    ghost use Rattle.dob_certificate.specs.declared.entry.Entry.{Entry};

    ghost Value = { List Entry };

    ghost use Rattle.dob_certificate.specs.Ascending.{AreAscending};

    ghost view = { λ list. list.entries.items };

    ghost invariant = { λ list. AreAscending list.entries.items };
}

impl Entries {
    /// An empty list.
    pub fn new(alloc: Global) -> Entries
        ensures { result ≡ [] }
    {
        Entries {
            entries: Vec::new(alloc),
        }
    }

    /// The entries, or None if they don't ascend: where a class isn't above the one before it.
    pub fn from_vec(entries: Vec<Entry>) -> Option<Entries>
        ensures some { IfSome result (λ list. list ≡ entries.items) }
        ensures ascending { IsSome result ↔ AreAscending entries.items }
    {
        if are_ascending(&entries) {
            Some(Entries { entries })
        } else {
            None
        }
    }

    /// A list of these entries, whose classes ascend.
    pub fn from_ascending(entries: Vec<Entry>) -> Entries
        requires { AreAscending entries.items }
        ensures { result ≡ entries.items }
    {
        Entries { entries }
    }

    /// The entries in the order of their classes.
    pub fn as_slice(&self) -> &[Entry]
        ensures entries { result.now ≡ self.now }
        ensures ascending { AreAscending self.now }
    {
        &self.entries
    }

    /// The entry of that class, or None if it has none. A binary search.
    pub fn find(&self, class: u64) -> Option<Entry>
        ensures some { IfSome result (λ entry. Contains self.now entry × (entry.class ≡ class)) }
        ensures none { IfNone result ((entry : Entry) → Contains self.now entry → entry.class ≢ class) }
        ensures alone { IfSome result (λ entry. (other : Entry) → Contains self.now other → other.class ≡ class → entry ≡ other) }
    {
        find_in(self.as_slice(), class)
    }
}

fn find_in(entries: &[Entry], class: u64) -> Option<Entry>
    requires { AreAscending entries.now }
    ensures some { IfSome result (λ entry. Contains entries.now entry × (entry.class ≡ class)) }
    ensures none { IfNone result ((entry : Entry) → Contains entries.now entry → entry.class ≢ class) }
    ensures alone { IfSome result (λ entry. (other : Entry) → Contains entries.now other → other.class ≡ class → entry ≡ other) }
{
    match entries.binary_search_by_key(&class, |entry: &Entry| entry.class as u64) {
        Ok(place) => Some(entries[place]),
        Err(_) => None,
    }
}

// Whether each class is above the one before it.
fn are_ascending(entries: &[Entry]) -> bool
    ensures { IsTrue result ↔ AreAscending entries.now }
{
    for place in 1..entries.len() {
        if entries[place].class <= entries[place - 1].class {
            return false;
        }
    }
    true
}
