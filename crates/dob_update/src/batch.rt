// Batches: runs of items from one owner to another.
ghost use Rattle.std.specs.Prelude.{◌≡◌, ◌<◌, ◌≤◌, ◌+◌, ◌*◌, ◌-◌, ◌++◌, length, map, take, drop, vec_len, vec_capacity, IfOk};
ghost use Rattle.std.specs.List.{All};
ghost use Rattle.dob_share.specs.Items.{item_for, items_in_all, items_of_parts, target_of, HasItem};
ghost use Rattle.dob_update.specs.Parts.{front, settlements_of};
ghost use Rattle.dob_update.specs.Batches.{IsBatch, IsFront};
ghost use Rattle.dob_update.specs.Runs.{AreItemsRun};

use dob_pieces::{Family, Memory};
use dob_share::{Item, Part, Settlement, item_for};
use std::alloc::Global;
use std::marker::Model;

/// A batch of items from one of `n` owners of a family's classes to another. Its items are those of its settlements
/// for the receiver, ascending in each settlement, without the first `skip` of them and up to some item; there is at
/// least one, and each settlement has one among them. A batch keeps 8 bytes an item, the class that it is for, and 24 a
/// settlement, with room for a settlement for each item.
#[derive(Drop)]
pub struct Batch {
    pub(crate) family: Family,
    pub(crate) n: usize,
    pub(crate) from: usize,
    pub(crate) to: usize,
    pub(crate) number: u64,
    pub(crate) parts: Vec<Part>,
    pub(crate) skip: usize,
    // The classes that the parts' items are for, one part after the other.
    pub(crate) classes: Vec<u64>,
}

impl Model for Batch {
    ghost use Rattle.std.specs.Prelude.{◌≡◌};
    ghost use Rattle.dob_share.specs.Items.{items_of_parts};
    ghost use Rattle.dob_update.specs.Parts.{settlements_of};
    ghost use Rattle.dob_update.specs.Batches.{BatchView};
    ghost use Rattle.dob_update.specs.Runs.{AreItemsRun};

    ghost Value = { BatchView };

    ghost view = { λ b. record { family = b.family; n = b.n; from = b.from; to = b.to; number = b.number; settlements = settlements_of b.parts.items; skip = b.skip; items = items_of_parts b.parts.items b.classes.items } };

    ghost invariant = { λ b. AreItemsRun b.family b.n b.to b.parts.items b.skip b.classes.items };
}

impl Batch {
    /// The family.
    pub fn family(&self) -> Family
        ensures { result ≡ self.now.family }
    {
        self.family
    }

    /// How many nodes there are.
    pub fn nodes(&self) -> usize
        ensures { result ≡ self.now.n }
    {
        self.n
    }

    /// The owner that sends the batch.
    pub fn from(&self) -> usize
        ensures { result ≡ self.now.from }
    {
        self.from
    }

    /// The owner that the batch is for.
    pub fn to(&self) -> usize
        ensures { result ≡ self.now.to }
    {
        self.to
    }

    /// How many batches were cut for this receiver before it.
    pub fn number(&self) -> u64
        ensures { result ≡ self.now.number }
    {
        self.number
    }

    /// The settlements, each with the number of its items here.
    pub fn parts(&self) -> &[Part]
        ensures settlements { settlements_of result.now ≡ self.now.settlements }
        ensures total { items_in_all result.now ≡ length self.now.items }
        ensures some { All HasItem result.now }
        ensures items { items_of_parts result.now (map target_of self.now.items) ≡ self.now.items }
    {
        &self.parts
    }

    /// How many items for the receiver its settlements have before the first one here.
    pub fn skip(&self) -> usize
        ensures { result ≡ self.now.skip }
    {
        self.skip
    }

    /// The classes that its items are for, in order: the first ones those of the first part.
    pub fn classes(&self) -> &[u64]
        ensures { result.now ≡ map target_of self.now.items }
    {
        &self.classes
    }

    /// How many items it has.
    pub fn len(&self) -> usize
        ensures len { result ≡ length self.now.items }
        ensures batch { IsBatch self.now }
    {
        self.classes.len()
    }

    /// The items, in order.
    pub fn items(&self, alloc: Global) -> Result<Vec<Item>, Memory>
        ensures { IfOk result (λ list. list.items ≡ self.now.items) }
    {
        let mut list = Vec::with_capacity(alloc, self.classes.len())?;
        self.list_items(&mut list);
        Ok(list)
    }

    /// Appends the items, in order, to a list that has room for them.
    pub fn list_items(&self, list: &mut Vec<Item>)
        requires { vec_len list.old + length self.now.items ≤ vec_capacity list.old }
        ensures { list.new.items ≡ list.old.items ++ self.now.items }
    {
        push_parts(list, &self.parts, &self.classes);
    }

    /// Keeps the first `k` items, from 1 to their number, and the settlements that these need.
    pub fn shorten(&mut self, k: usize)
        requires some { 0 < k }
        requires within { k ≤ length self.old.items }
        ensures { IsFront self.old k self.new }
    {
        keep_front(&mut self.parts, k);
        self.classes.truncate(k);
    }
}

// Keeps the parts of the first `k` items.
fn keep_front(parts: &mut Vec<Part>, k: usize)
    ensures { parts.new.items ≡ front k parts.old.items }
{
    let mut rest = k;
    let mut index = 0;
    while rest > 0 && index < parts.len() {
        let items = parts[index].items().min(rest);
        parts[index] = parts[index].with_items(items);
        rest -= items;
        index += 1;
    }
    parts.truncate(index);
}

// Appends the items of the parts, whose classes are listed one part after the other, to a list that has room for them.
fn push_parts(list: &mut Vec<Item>, parts: &[Part], classes: &[u64])
    requires within { items_in_all parts.now ≤ length classes.now }
    requires room { vec_len list.old + items_in_all parts.now ≤ vec_capacity list.old }
    ensures { list.new.items ≡ list.old.items ++ items_of_parts parts.now classes.now }
{
    let mut next = 0;
    for part in parts {
        let items = part.items();
        push_part_items(list, part.settlement(), classes, next, items);
        next += items;
    }
}

// Appends the news of the settlement for `count` classes, those from that place on, for which there is room.
#[tactic(auto, using(crate::proofs::PartItems::items_more))]
fn push_part_items(
    list: &mut Vec<Item>,
    settlement: Settlement,
    classes: &[u64],
    start: usize,
    count: usize,
)
    requires within { start + count ≤ length classes.now }
    requires room { vec_len list.old + count ≤ vec_capacity list.old }
    ensures items { list.new.items ≡ list.old.items ++ map (item_for settlement) (take count (drop start classes.now)) }
    ensures len { vec_len list.new ≡ vec_len list.old + count }
    ensures capacity { vec_capacity list.new ≡ vec_capacity list.old }
{
    for index in 0..count {
        list.push_reserved(item_for(settlement, classes[start + index]));
    }
}
