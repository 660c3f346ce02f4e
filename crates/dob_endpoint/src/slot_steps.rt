// What a runner does with its slots: it holds and offers batches, and receives and releases them.
ghost use Rattle.std.specs.Prelude.{◌≡◌, ◌≢◌, ◌≤◌, ℕ, true, false, None, Some, ◌∷◌, [], ◌++◌, length};
ghost use Rattle.dob_chan.specs.Inboxes.{most_deliveries};
ghost use Rattle.dob_update.specs.Batches.{BatchView};
ghost use Rattle.dob_chan.specs.Ends.{place_of};
ghost use Rattle.dob_endpoint.specs.Slots.{in_slot};
ghost use Rattle.dob_endpoint.specs.Links.{offered, worked, IsOffered, IsReceived, KeepsInlet};

use crate::slots::{Inlet, Outlet};
use dob_chan::{SendEnd, TakeEnd};
use dob_update::Batch;
use std::sync::Wait;

impl Outlet {
    /// An outlet whose slot is empty.
    pub fn new(end: SendEnd) -> Outlet
        ensures end { result.end ≡ end }
        ensures slot { result.slot ≡ None }
    {
        Outlet { end, slot: None }
    }

    /// Whether a batch is in the slot.
    pub fn is_full(&self) -> bool
        ensures full { result ≡ true → self.now.slot ≢ None }
        ensures empty { result ≡ false → self.now.slot ≡ None }
    {
        self.slot.is_some()
    }

    // Puts a batch of its sender into the slot, which is empty.
    pub(crate) fn hold(&mut self, batch: Batch)
        requires empty { self.old.slot ≡ None }
        requires own { batch.from ≡ place_of self.old.end }
        ensures offered { offered self.new ≡ offered self.old ++ batch ∷ [] }
        ensures end { self.new.end ≡ self.old.end }
    {
        self.slot = Some(batch);
    }

    /// Offers the batch in the slot, if one is there, to the inbox; tries once. A batch that isn't taken stays in the slot, which is only
    /// where the inbox was full. Its promises hold if it returns.
    pub fn offer<R: Wait>(&mut self, rt: &R)
        requires { length (offered self.old) ≤ most_deliveries }
        ensures { IsOffered self.old self.new }
    {
        let Some(batch) = self.slot.take() else {
            return;
        };
        if let Err(full) = self.end.offer(rt, batch) {
            self.slot = Some(full.batch);
        }
    }
}

impl Inlet {
    /// An inlet whose slot is empty.
    pub fn new(end: TakeEnd) -> Inlet
        ensures end { result.end ≡ end }
        ensures slot { result.slot ≡ None }
    {
        Inlet { end, slot: None }
    }

    /// Whether a batch is in the slot.
    pub fn is_full(&self) -> bool
        ensures full { result ≡ true → self.now.slot ≢ None }
        ensures empty { result ≡ false → self.now.slot ≡ None }
    {
        self.slot.is_some()
    }

    /// How many items the batch in the slot has, 0 if the slot is empty.
    pub fn held_items(&self) -> usize
        ensures { (batch : BatchView) → self.now.slot ≡ Some batch → result ≡ length batch.items }
    {
        let Some(batch) = &self.slot else {
            return 0;
        };
        batch.len()
    }

    /// Takes the inbox's next batch into the slot, if that is empty; tries once. The slot is empty afterwards only if the
    /// inbox was. Its promises hold if it returns.
    pub fn receive<R: Wait>(&mut self, rt: &R)
        ensures worked { worked self.new ≡ worked self.old }
        ensures keeps { KeepsInlet self.old self.new }
        ensures held { self.old.slot ≢ None → self.new.slot ≡ self.old.slot }
        ensures asked { IsReceived self.old self.new }
    {
        if self.slot.is_some() {
            return;
        }
        self.slot = self.end.next(rt);
    }

    // The batch in the slot, which is empty afterwards: now it is the node's to work in.
    pub(crate) fn release(&mut self) -> Option<Batch>
        ensures batch { result ≡ self.old.slot }
        ensures worked { worked self.new ≡ worked self.old ++ in_slot self.old.slot }
        ensures end { self.new.end ≡ self.old.end }
        ensures empty { self.new.slot ≡ None }
    {
        self.slot.take()
    }
}
