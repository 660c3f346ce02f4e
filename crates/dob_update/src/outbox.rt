// Outboxes: what an owner has still to send to another.
ghost use Rattle.std.specs.Prelude.{◌≡◌, ◌≢◌, ◌<◌, ◌≤◌, ◌+◌, ◌^◌, ◌↔◌, ℕ, [], ◌++◌, length, take};
ghost use Rattle.std.specs.Prelude.{vec_len, vec_capacity, IsTrue, IsSome, IsNone, IfOk, IfSome, OnOk, OnErr};
ghost use Rattle.dob_unmove.specs.Edges.{predecessors};
ghost use Rattle.dob_share.specs.declared.news.Settlement.{Settlement as Settled};
ghost use Rattle.dob_share.specs.Items.{items_of, items_in_all};
ghost use Rattle.dob_update.specs.Parts.{front, skip_after, AreWhole};
ghost use Rattle.dob_update.specs.Batches.{IsOutbox, IsCut, empty_outbox, added};

use crate::batch::Batch;
use crate::queue::ItemQueue;
use crate::sizes::BatchSize;
use dob_pieces::{Family, Memory};
use dob_share::{Item, News, Part, Settlement};
use std::alloc::Global;
use std::marker::Model;

/// What one of `nodes` owners of a family's classes has still to send to another: the items of its settlements for the
/// receiver, in order, and for how many items of one more settlement it has room. It keeps as many bytes as its queue.
#[derive(Drop)]
pub struct Outbox {
    alloc: Global,
    family: Family,
    nodes: usize,
    from: usize,
    to: usize,
    queue: ItemQueue,
    // How many items of the first settlement were cut before.
    skip: usize,
    next: u64,
}

impl Model for Outbox {
    ghost use Rattle.std.specs.Prelude.{◌≡◌};
    ghost use Rattle.dob_update.specs.Parts.{settlements_of};
    ghost use Rattle.dob_update.specs.Queues.{queued};
    ghost use Rattle.dob_update.specs.Batches.{OutboxState};
    ghost use Rattle.dob_update.specs.Runs.{AreListed};

    ghost Value = { OutboxState };

    ghost view = { λ o. record { sends = record { family = o.family; n = o.nodes; from = o.from; to = o.to; settlements = settlements_of o.queue.parts; skip = o.skip; items = queued o.queue; next = o.next }; room = o.queue.room } };

    ghost invariant = { λ o. AreListed o.family o.nodes o.to o.queue.parts o.skip o.queue.classes };
}

impl Outbox {
    /// An outbox with nothing to send, of one of `nodes` owners for another.
    pub fn new(alloc: Global, family: Family, nodes: usize, from: usize, to: usize) -> Outbox
        ensures { result.sends ≡ empty_outbox family nodes from to }
    {
        Outbox {
            alloc,
            family,
            nodes,
            from,
            to,
            queue: ItemQueue::new(alloc),
            skip: 0,
            next: 0,
        }
    }

    /// Whether nothing is left to send.
    pub fn is_empty(&self) -> bool
        ensures empty { IsTrue result ↔ (self.now.sends.items ≡ []) }
        ensures outbox { IsOutbox self.now.sends }
    {
        self.queue.is_empty()
    }

    /// How many items are left to send.
    pub fn len(&self) -> usize
        ensures { result ≡ length self.now.sends.items }
    {
        self.queue.len()
    }

    /// How many batches were cut.
    pub fn cut_count(&self) -> u64
        ensures { result ≡ self.now.sends.next }
    {
        self.next
    }

    /// Makes room for so many items of one settlement.
    ///
    /// # Errors
    ///
    /// `Memory`, which leaves all else as it was.
    #[inline(always)]
    pub fn reserve(&mut self, items: usize) -> Result<(), Memory>
        ensures sends { self.new.sends ≡ self.old.sends }
        ensures room { OnOk result (items ≤ self.new.room) }
    {
        let queue = &mut self.queue;
        queue.reserve(items)?;
        Ok(())
    }

    /// Adds a settlement with its items for the receiver; one without items isn't listed, and takes no memory.
    ///
    /// # Errors
    ///
    /// `Memory`, after which the outbox has the same to send; also where a value is none that a table can have, for which there is no room.
    pub fn add(&mut self, settlement: Settlement, items: &[Item]) -> Result<(), Memory>
        requires { items.now ≡ items_of (predecessors self.old.sends.family) self.old.sends.n self.old.sends.to settlement }
        ensures ok { OnOk result (self.new.sends ≡ added self.old.sends settlement items.now) }
        ensures err { OnErr result ((self.new.sends ≡ self.old.sends) × (items.now ≢ [])) }
    {
        if items.is_empty() {
            return Ok(());
        }
        let Some(news) = News::of(settlement) else {
            return Err(Memory);
        };
        let queue = &mut self.queue;
        queue.reserve(items.len())?;
        queue.add(&news, items);
        Ok(())
    }

    /// Adds a settlement of whose class these are the predecessors, with an item for each of them that the receiver owns, and for which
    /// there is room; one without items isn't listed. It is `add` for a caller that has no items, so that none are made before a batch is cut.
    pub fn add_targets(&mut self, news: &News, targets: &[u64])
        requires owners { 0 < self.old.sends.n }
        requires targets { targets.now ≡ predecessors self.old.sends.family news.now.class }
        requires room { length targets.now ≤ self.old.room }
        ensures { self.new.sends ≡ added self.old.sends news.now (items_of (λ _. targets.now) self.old.sends.n self.old.sends.to news.now) }
    {
        let queue = &mut self.queue;
        queue.add_owned(news, targets, self.nodes, self.to);
    }

    /// Cuts a batch of the first items, `size` of them, or of all if fewer are left, and `None` if none is, which
    /// takes no memory. After `Memory` the outbox is unchanged. The outbox has cut fewer than 2^64 - 1 batches before.
    pub fn cut(&mut self, size: BatchSize) -> Result<Option<Batch>, Memory>
        requires { self.old.sends.next + 1 < 2 ^ 64 }
        ensures none { IfOk result (λ batch. IsNone batch ↔ (self.old.sends.items ≡ [])) }
        ensures nothing { IfOk result (λ batch. IsNone batch → self.new ≡ self.old) }
        ensures batch { IfOk result (λ batch. IfSome batch (λ b. IsCut self.old.sends size b self.new.sends)) }
        ensures err { OnErr result ((self.new ≡ self.old) × (self.old.sends.items ≢ [])) }
    {
        let taken = size.get().min(self.queue.len());
        if taken == 0 {
            return Ok(None);
        }
        let mut parts = Vec::with_capacity(self.alloc, taken)?;
        let mut classes = Vec::with_capacity(self.alloc, taken)?;
        let skip = self.skip;
        let left = push_front(&mut parts, self.queue.parts(), skip, taken);
        push_first(&mut classes, self.queue.classes(), taken);
        let queue = &mut self.queue;
        queue.drop_front(taken);
        self.skip = left;
        let batch = Batch {
            family: self.family,
            n: self.nodes,
            from: self.from,
            to: self.to,
            number: self.next,
            parts,
            skip,
            classes,
        };
        self.next += 1;
        Ok(Some(batch))
    }
}

// Appends the parts of the first `k` items to the list, which has room for as many, after `skip` items of the first part; how many the first
// one that is left has before.
fn push_front(list: &mut Vec<Part>, parts: &[Part], skip: usize, k: usize) -> usize
    requires whole { (count : Settled → ℕ) × AreWhole count skip parts.now }
    requires within { k ≤ items_in_all parts.now }
    requires room { vec_len list.old + k ≤ vec_capacity list.old }
    ensures moved { list.new.items ≡ list.old.items ++ front k parts.now }
    ensures skip { result ≡ skip_after skip k parts.now }
{
    let mut before = skip;
    let mut rest = k;
    for part in parts {
        let items = part.items();
        if rest < items {
            if rest > 0 {
                list.push_reserved(part.with_items(rest));
            }
            return before + rest;
        }
        list.push_reserved(part.with_items(items));
        rest -= items;
        before = 0;
    }
    before
}

// Appends the first `k` classes to the list, which has room for them, all at once.
fn push_first(list: &mut Vec<u64>, classes: &[u64], k: usize)
    requires within { k ≤ length classes.now }
    requires room { vec_len list.old + k ≤ vec_capacity list.old }
    ensures { list.new.items ≡ list.old.items ++ take k classes.now }
{
    // There is room.
    let _ = list.extend_from_slice(&classes[..k]);
}
