// Queues of items: what waits to be applied, or to be sent.
ghost use Rattle.std.specs.Prelude.{◌≡◌, ◌<◌, ◌≤◌, ◌+◌, ◌-◌, ◌==◌, ◌++◌, ◌↔◌, ◌⊎◌, [], length, map, take, drop, slice_get};
ghost use Rattle.std.specs.Prelude.{◌^◌, vec_len, vec_capacity, IsTrue, IfSome, OnOk};
ghost use Rattle.std.specs.List.{All, filter};
ghost use Rattle.dob_distance.specs.Codes.{IsEntry};
ghost use Rattle.dob_share.specs.Owners.{owner_of};
ghost use Rattle.dob_share.specs.Items.{items_of, items_in_all, target_of, HasItem};
ghost use Rattle.dob_update.specs.Parts.{left_after};
ghost use Rattle.dob_update.specs.Queues.{queued, with_part};

use dob_pieces::Memory;
use dob_share::{Item, News, Part, item_for};
use std::alloc::Global;
use std::marker::Model;

// The most items of one settlement that a queue takes: a part has no room for a greater number.
const MOST_OF_ONE: usize = u32::MAX as usize;

// How many elements change places one by one, at most.
const FEW: usize = 512;

/// Items in order, settlement after settlement, and for how many items of one more settlement there is room. It keeps 8 bytes an
/// item, its class, and 24 a settlement, at most double while it grows.
#[derive(Drop)]
pub struct ItemQueue {
    parts: Vec<Part>,
    // The classes that the parts' items are for, one part after the other.
    classes: Vec<u64>,
}

impl Model for ItemQueue {
    ghost use Rattle.std.specs.Prelude.{◌-◌, vec_len, vec_capacity};
    ghost use Rattle.dob_update.specs.Queues.{QueueView, AreQueued, room_of};

    ghost Value = { QueueView };

    ghost view = { λ q. record { parts = q.parts.items; classes = q.classes.items; room = room_of (vec_capacity q.parts - vec_len q.parts) (vec_capacity q.classes - vec_len q.classes) } };

    ghost invariant = { λ q. AreQueued q.parts.items q.classes.items };
}

impl ItemQueue {
    /// A queue with nothing in it, which takes no memory.
    pub fn new(alloc: Global) -> ItemQueue
        ensures parts { result.parts ≡ [] }
        ensures classes { result.classes ≡ [] }
    {
        ItemQueue {
            parts: Vec::new(alloc),
            classes: Vec::new(alloc),
        }
    }

    /// Whether no item waits.
    pub fn is_empty(&self) -> bool
        ensures { IsTrue result ↔ (queued self.now ≡ []) }
    {
        self.classes.is_empty()
    }

    /// How many items wait.
    pub fn len(&self) -> usize
        ensures items { result ≡ length (queued self.now) }
        ensures classes { result ≡ length self.now.classes }
    {
        self.classes.len()
    }

    /// The first item, if there is one.
    pub fn first(&self) -> Option<Item>
        ensures item { result ≡ slice_get (queued self.now) 0 }
        ensures entries { IfSome result (λ item. IsEntry item.was × IsEntry item.now) }
    {
        if self.classes.is_empty() {
            return None;
        }
        Some(item_for(self.parts[0].settlement(), self.classes[0]))
    }

    /// The settlements, each with the number of its items.
    pub fn parts(&self) -> &[Part]
        ensures value { result.now ≡ self.now.parts }
        ensures total { items_in_all result.now ≡ length self.now.classes }
    {
        &self.parts
    }

    /// The classes that the items are for, in order.
    pub fn classes(&self) -> &[u64]
        ensures { result.now ≡ self.now.classes }
    {
        &self.classes
    }

    /// For how many items of one more settlement there is room.
    #[inline(always)]
    pub fn room(&self) -> usize
        ensures { result ≡ self.now.room }
    {
        if self.parts.capacity() == self.parts.len() {
            return 0;
        }
        MOST_OF_ONE.min(self.classes.capacity() - self.classes.len())
    }

    /// Makes room for so many items of one settlement. Inlined, since there mostly is some.
    ///
    /// # Errors
    ///
    /// `Memory`, which leaves the items as they were.
    #[inline(always)]
    pub fn reserve(&mut self, items: usize) -> Result<(), Memory>
        ensures parts { self.new.parts ≡ self.old.parts }
        ensures classes { self.new.classes ≡ self.old.classes }
        ensures room { OnOk result (items ≤ self.new.room) }
    {
        if items <= self.room() {
            return Ok(());
        }
        self.grow(items)
    }

    // Makes that room where there is less.
    fn grow(&mut self, items: usize) -> Result<(), Memory>
        ensures parts { self.new.parts ≡ self.old.parts }
        ensures classes { self.new.classes ≡ self.old.classes }
        ensures room { OnOk result (items ≤ self.new.room) }
    {
        if items > MOST_OF_ONE {
            return Err(Memory);
        }
        self.parts.reserve(1)?;
        self.classes.reserve(items)?;
        Ok(())
    }

    /// Appends these items, which are the settlement's and for which there is room; without any the settlement isn't listed.
    pub(crate) fn add(&mut self, news: &News, items: &[Item])
        requires { length items.now ≤ self.old.room }
        ensures parts { self.new.parts ≡ with_part self.old.parts news.now (length items.now) }
        ensures classes { self.new.classes ≡ self.old.classes ++ map target_of items.now }
    {
        push_classes(&mut self.classes, items);
        push_part(&mut self.parts, news, items.len());
    }

    /// Appends the settlement's items for the owner `to`, one of `nodes`; `targets` are the classes with a move into the settled one,
    /// and there is room for an item of each. Without an item the settlement isn't listed.
    pub fn add_owned(&mut self, news: &News, targets: &[u64], nodes: usize, to: usize)
        requires owners { 0 < nodes }
        requires room { length targets.now ≤ self.old.room }
        ensures parts { self.new.parts ≡ with_part self.old.parts news.now (length (filter (λ class. owner_of nodes class == to) targets.now)) }
        ensures classes { self.new.classes ≡ self.old.classes ++ filter (λ class. owner_of nodes class == to) targets.now }
        ensures items { queued self.new ≡ queued self.old ++ items_of (λ _. targets.now) nodes to news.now }
    {
        let before = self.classes.len();
        push_owned(&mut self.classes, targets, nodes, to);
        let items = self.classes.len() - before;
        push_part(&mut self.parts, news, items);
    }

    /// Drops the first `k` items, of which there are as many.
    pub fn drop_front(&mut self, k: usize)
        requires { k ≤ length (queued self.old) }
        ensures parts { self.new.parts ≡ left_after k self.old.parts }
        ensures classes { self.new.classes ≡ drop k self.old.classes }
        ensures items { queued self.new ≡ drop k (queued self.old) }
    {
        if k == self.classes.len() {
            self.parts.clear();
            self.classes.clear();
            return;
        }
        drop_parts(&mut self.parts, k);
        drop_first(&mut self.classes, k);
    }
}

// Appends the settlement with that number of items, where it has some; for such there is room.
fn push_part(parts: &mut Vec<Part>, news: &News, items: usize)
    requires few { items < 2 ^ 32 }
    requires room { 0 < items → vec_len parts.old < vec_capacity parts.old }
    ensures { parts.new.items ≡ with_part parts.old.items news.now items }
{
    if items > 0 {
        parts.push_reserved(Part::new(news, items));
    }
}

// Appends the classes of the items, for which there is room.
fn push_classes(classes: &mut Vec<u64>, items: &[Item])
    requires { vec_len classes.old + length items.now ≤ vec_capacity classes.old }
    ensures { classes.new.items ≡ classes.old.items ++ map target_of items.now }
{
    for item in items {
        classes.push_reserved(item.to);
    }
}

// Appends those of the targets that are the owner's, one of `nodes`; there is room for all of them. The number of nodes is matched once for
// all targets, since a division by each of these takes no instruction that divides.
fn push_owned(classes: &mut Vec<u64>, targets: &[u64], nodes: usize, to: usize)
    requires owners { 0 < nodes }
    requires room { vec_len classes.old + length targets.now ≤ vec_capacity classes.old }
    ensures { classes.new.items ≡ classes.old.items ++ filter (λ class. owner_of nodes class == to) targets.now }
{
    match nodes {
        1 => push_owned_by::<1>(classes, targets, nodes, to),
        2 => push_owned_by::<2>(classes, targets, nodes, to),
        3 => push_owned_by::<3>(classes, targets, nodes, to),
        4 => push_owned_by::<4>(classes, targets, nodes, to),
        5 => push_owned_by::<5>(classes, targets, nodes, to),
        6 => push_owned_by::<6>(classes, targets, nodes, to),
        7 => push_owned_by::<7>(classes, targets, nodes, to),
        8 => push_owned_by::<8>(classes, targets, nodes, to),
        9 => push_owned_by::<9>(classes, targets, nodes, to),
        10 => push_owned_by::<10>(classes, targets, nodes, to),
        11 => push_owned_by::<11>(classes, targets, nodes, to),
        12 => push_owned_by::<12>(classes, targets, nodes, to),
        13 => push_owned_by::<13>(classes, targets, nodes, to),
        14 => push_owned_by::<14>(classes, targets, nodes, to),
        15 => push_owned_by::<15>(classes, targets, nodes, to),
        16 => push_owned_by::<16>(classes, targets, nodes, to),
        _ => push_owned_by::<0>(classes, targets, nodes, to),
    }
}

// The same, where `N` is the number of nodes, or 0 for any other number.
fn push_owned_by<const N: usize>(classes: &mut Vec<u64>, targets: &[u64], nodes: usize, to: usize)
    requires owners { 0 < nodes }
    requires number { (N ≡ 0) ⊎ (N ≡ nodes) }
    requires room { vec_len classes.old + length targets.now ≤ vec_capacity classes.old }
    ensures { classes.new.items ≡ classes.old.items ++ filter (λ class. owner_of nodes class == to) targets.now }
{
    let number = if N == 0 { nodes } else { N };
    for class in targets {
        if *class % number as u64 == to as u64 {
            classes.push_reserved(*class);
        }
    }
}

// Drops the first `k` items of the parts, each of which has one.
fn drop_parts(parts: &mut Vec<Part>, k: usize)
    requires some { All HasItem parts.old.items }
    requires within { k ≤ items_in_all parts.old.items }
    ensures { parts.new.items ≡ left_after k parts.old.items }
{
    let mut rest = k;
    let mut gone = 0;
    while gone < parts.len() && parts[gone].items() <= rest {
        rest -= parts[gone].items();
        gone += 1;
    }
    drop_first(parts, gone);
    if rest > 0 {
        let left = parts[0].items() - rest;
        parts[0] = parts[0].with_items(left);
    }
}

// Drops the first `k` elements.
fn drop_first<T: Drop>(list: &mut Vec<T>, k: usize)
    requires { k ≤ vec_len list.old }
    ensures { list.new.items ≡ drop k list.old.items }
{
    let left = list.len() - k;
    bring_forward(list, k);
    list.truncate(left);
}

// Brings the elements from the k-th on to the front. Mostly few are left, and these change places with the first ones: `rotate_left` clears some
// 100 KB for itself each time.
fn bring_forward<T>(list: &mut Vec<T>, k: usize)
    requires { k ≤ vec_len list.old }
    ensures len { vec_len list.new ≡ vec_len list.old }
    ensures front { take (vec_len list.old - k) list.new.items ≡ drop k list.old.items }
{
    let left = list.len() - k;
    if left > FEW {
        list.rotate_left(k);
        return;
    }
    for place in 0..left {
        list.swap(place, place + k);
    }
}
