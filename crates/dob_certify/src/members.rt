// The classes that a list is to have, each with a number of plies, until the list is written.
ghost use Rattle.std.specs.Prelude.{All, IfOk, IsTrue, ◌↔◌};
ghost use Rattle.dob_certify.specs.Lists.{IsByTable, IsLostWithin, SaysOf};

use crate::fault::Stop;
use dob_certificate::{Entries, Entry, ListKind};
use dob_pieces::Memory;
use dob_value::{Table, Value};
use std::alloc::Global;
use std::collections::HashMap;

/// Classes with their numbers of plies, and how many there may be.
#[derive(Drop)]
pub(crate) struct Members {
    plies: HashMap<u32, u16>,
    most: u64,
}

impl Members {
    /// None yet, with room for at most `most`.
    pub(crate) fn new(alloc: Global, most: u64) -> Members {
        Members {
            plies: HashMap::new(alloc),
            most,
        }
    }

    /// The class's number of plies, if it is a member.
    pub(crate) fn get(&self, class: u32) -> Option<u16> {
        self.plies.get(&class).copied()
    }

    /// Makes the class a member with that number of plies, in place of the one that it had.
    ///
    /// # Errors
    ///
    /// `Memory`; `Full` if there are more members than there may be.
    pub(crate) fn insert(&mut self, class: u32, plies: u16) -> Result<(), Stop> {
        self.plies.insert(class, plies)?;
        if self.plies.len() as u64 > self.most {
            Err(Stop::Full)
        } else {
            Ok(())
        }
    }

    /// The members by ascending class, as entries of such a list, where the table says of them what the list does, as it does of all that a search finds.
    pub(crate) fn entries(
        &self,
        alloc: Global,
        table: &Table,
        kind: ListKind,
    ) -> Result<Entries, Memory>
        ensures { IfOk result (All (IsByTable table.now kind)) }
    {
        let mut entries = Vec::with_capacity(alloc, self.plies.len())?;
        for (class, plies) in self.plies.iter() {
            let entry = Entry {
                class: *class,
                plies: *plies,
            };
            if is_by_table(table, kind, entry) {
                entries.push(entry)?;
            }
        }
        entries.sort_unstable_by_key(|entry: &Entry| entry.class);
        // A class is a key once, so sorted entries ascend.
        match Entries::from_vec(entries) {
            Some(entries) => Ok(entries),
            None => Ok(Entries::new(alloc)),
        }
    }
}

// Whether the table says of the class what the entry of such a list does.
fn is_by_table(table: &Table, kind: ListKind, entry: Entry) -> bool
    ensures { IsTrue result → IsByTable table.now kind entry }
{
    let class = entry.class as u64;
    if class >= table.class_count() {
        return false;
    }
    says_of(kind, table.value(class), entry.plies)
}

// Whether a value is what such a list says by that number of plies.
fn says_of(kind: ListKind, value: Value, plies: u16) -> bool
    ensures { IsTrue result ↔ SaysOf kind value plies }
{
    match kind {
        ListKind::Lost => is_lost_within(value, plies),
        ListKind::Held => !is_lost_within(value, plies),
    }
}

// Whether a value is a loss within so many plies.
fn is_lost_within(value: Value, plies: u16) -> bool
    ensures { IsTrue result ↔ IsLostWithin value plies }
{
    match value {
        Value::Loss(distance) => distance <= plies,
        Value::Win(_) | Value::Draw => false,
    }
}
