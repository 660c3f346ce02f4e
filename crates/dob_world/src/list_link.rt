// A link as a ring of slots.
ghost use Rattle.std.specs.Prelude.{◌≡◌, ◌≤◌, ◌↔◌, List, [], ◌∷◌, length, IsTrue, IfOk, IfSome, IfNone};
ghost use Rattle.dob_update.specs.Batches.{BatchView};
ghost use Rattle.dob_world.specs.Links.{link_of};

use crate::link::{Full, Link};
use circular_buffer::HeapCircularBuffer;
use dob_pieces::Memory;
use dob_update::{Batch, Capacity};
use std::alloc::Global;
use std::marker::Model;

/// A link in memory with room for a number of batches from the start. It takes one slot for each batch, and no memory
/// when batches go through it.
#[derive(Drop)]
pub struct ListLink {
    slots: HeapCircularBuffer<Batch>,
}

impl Model for ListLink {
    ghost use Rattle.dob_world.specs.Links.{LinkView, link_of};

    ghost Value = { LinkView };

    ghost view = { λ link. link_of link.slots.items link.slots.capacity };
}

impl ListLink {
    /// An empty link with room for `capacity` batches. `Memory` if there is none for the slots.
    pub fn open(alloc: Global, capacity: Capacity) -> Result<ListLink, Memory>
        ensures { IfOk result (λ link. link ≡ link_of [] capacity) }
    {
        let slots = HeapCircularBuffer::with_capacity(alloc, capacity.get())?;
        Ok(ListLink { slots })
    }

    /// Whether it holds its capacity.
    pub fn is_full(&self) -> bool
        ensures { IsTrue result ↔ (self.now.capacity ≤ length self.now.waiting) }
    {
        self.slots.capacity() <= self.slots.len()
    }

    /// How many items the batch has that is handed out next, where one waits.
    pub fn first_len(&self) -> Option<usize>
        ensures none { IfNone result (self.now.waiting ≡ []) }
        ensures some { IfSome result (λ count. (batch : BatchView) × (rest : List BatchView) × (self.now.waiting ≡ batch ∷ rest) × (count ≡ length batch.items)) }
    {
        match self.slots.front() {
            Some(batch) => Some(batch.len()),
            None => None,
        }
    }
}

impl Link for ListLink {
    ghost use Rattle.std.specs.Prelude.{◌≡◌, ◌<◌, ◌↔◌, length, IsOk, OnOk, OnErr, IfErr, IfSome, IfNone};
    ghost use Rattle.dob_world.specs.Links.{Taken, GivenBack, Handed, Nothing, LinkSteps};

    ghost waiting = { λ link. link.waiting };

    ghost capacity = { λ link. link.capacity };

    fn offer(&mut self, batch: Batch) -> Result<(), Full> {
        match self.slots.try_push_back(batch) {
            Ok(()) => Ok(()),
            Err(batch) => Err(Full { batch }),
        }
    }

    fn next(&mut self) -> Option<Batch> {
        self.slots.pop_front()
    }
}
