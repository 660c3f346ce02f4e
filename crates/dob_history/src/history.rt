// The history of a node: the settlements of its own classes, in order. Those of the start follow from the statuses, the others take
// 8 bytes each. It makes the room for a settlement before an item changes a cell, and for those of a batch before its first item does.
ghost use Rattle.std.specs.Prelude.{◌≡◌, ◌≢◌, ◌↔◌, ℕ, ◌+◌, ◌/◌, ◌^◌, ◌<◌, ◌≤◌, ◌∷◌, ◌++◌, [], length, take, Option, Some, Err, IfErr, OnOk, OnErr, slice_get};
ghost use Rattle.dob_pieces.specs.declared.profile.Family.{Family as Set};
ghost use Rattle.dob_distance.specs.Codes.{IsEntry};
ghost use Rattle.dob_share.specs.Owners.{owner_of, class_of_place};
ghost use Rattle.dob_distance.specs.declared.value.Value.TheVariants.{Draw};
ghost use Rattle.dob_share.specs.declared.news.Settlement.{Settlement as Settled};
ghost use Rattle.dob_share.specs.declared.share.Seen.{Seen};
ghost use Rattle.dob_share.specs.Shares.{Fits, GoesTooDeep, IsSeen, cell_at};
ghost use Rattle.dob_share.specs.declared.cause.Cause.TheVariants as cause;
ghost use Rattle.dob_history.specs.Stores.{settlement_stored, settlements_from, starts_of};
ghost use Rattle.dob_history.specs.Levels.{level_of};
ghost use Rattle.dob_history.specs.TakenItems.{HasItemEntries, AreKept, StayKept, IsHistory, IsTaken, IsReason};

use crate::start_statuses::{StartStatuses, StartValue};
use dob_distance::{Value, code_of_value, value_of_code};
use dob_lists::{SegmentLength, Segments};
use dob_pieces::Memory;
use dob_safra::NodeCount;
use dob_share::{Cause, Item, News, Seen, Settlement, Share, quotient};
use std::alloc::Global;
use std::marker::Model;

/// A settlement of the class at a place, with its values as a table keeps them; its number is its place in the history.
#[derive(Clone, Copy)]
pub(crate) struct Stored {
    pub(crate) place: u32,
    pub(crate) was: u16,
    pub(crate) now: u16,
}

/// The settlements of one owner `id` among `nodes`, in order: those of the start, and the first `count` of those stored. What is stored
/// behind them is room for the next; for `room` of them there is some.
#[derive(Drop)]
pub struct History {
    id: usize,
    nodes: NodeCount,
    starts: StartStatuses,
    count: u64,
    room: u64,
    stored: Segments<Stored>,
}

impl Model for History {
    ghost use Rattle.std.specs.Prelude.{◌+◌, ◌<◌, ◌≤◌, length, take};
    ghost use Rattle.dob_history.specs.Stores.{HistoryView, settlements_of};

    ghost Value = { HistoryView };

    ghost view = { λ h. record { id = h.id; n = h.nodes; settlements = settlements_of h.nodes h.id h.starts (take h.count h.stored); room = h.room } };

    ghost invariant = { λ h. (h.id < h.nodes) × (h.count + h.room ≤ length h.stored) };
}

impl History {
    /// The history of owner `id` among `nodes` at the start, in segments of that length.
    pub fn new(
        alloc: Global,
        id: usize,
        nodes: NodeCount,
        starts: StartStatuses,
        segment_length: SegmentLength,
    ) -> History
        requires { id < nodes }
        ensures { result ≡ record { id = id; n = nodes; settlements = starts_of nodes id starts; room = 0 } }
    {
        History {
            id,
            nodes,
            starts,
            count: 0,
            room: 0,
            stored: Segments::new(alloc, segment_length),
        }
    }

    /// How many settlements there are.
    pub fn len(&self) -> u64
        ensures count { result ≡ length self.now.settlements }
        ensures bound { result ≤ 2 ^ 57 }
    {
        // No list has more items than are stored.
        let _stored = self.stored.len();
        self.starts.settled() + self.count
    }

    /// The settlement of that number. For one of the start it walks from where `reach` went last, or else from the first class.
    pub fn get(&self, number: u64) -> Settlement
        requires { number < length self.now.settlements }
        ensures { slice_get self.now.settlements number ≡ Some result }
    {
        let first = self.starts.settled();
        if number < first {
            let start = self.starts.find(number);
            return start_news(number, start, self.nodes, self.id).settlement();
        }
        let stored = self.stored.get(number - first);
        stored_news(number, stored, self.nodes, self.id).settlement()
    }

    /// The news of the settlement of that number, which is found so that those behind it are found quickly from then on.
    pub fn reach(&mut self, number: u64) -> News
        requires { number < length self.old.settlements }
        ensures same { self.new ≡ self.old }
        ensures get { slice_get self.old.settlements number ≡ Some result }
    {
        let first = self.starts.settled();
        if number < first {
            let start = self.starts.reach(number);
            return start_news(number, start, self.nodes, self.id);
        }
        let stored = self.stored.get(number - first);
        stored_news(number, stored, self.nodes, self.id)
    }

    /// The level of the settlement of that number: the distance of its value now, and 1 of each one of the start.
    pub fn level(&self, number: u64) -> u16
        requires { number < length self.now.settlements }
        ensures { (s : Settled) → slice_get self.now.settlements number ≡ Some s → result ≡ level_of s }
    {
        let first = self.starts.settled();
        if number < first {
            return 1;
        }
        let stored = self.stored.get(number - first);
        value_of_code(stored.now).plies().max(1)
    }

    /// Makes room for that many settlements. `Memory`, which comes only if there was less, leaves the history as it was.
    pub fn reserve(&mut self, settlements: u64) -> Result<(), Memory>
        ensures same { IsHistory self.old self.new }
        ensures room { OnOk result (settlements ≤ self.new.room) }
        ensures none { OnErr result (self.old.room < settlements) }
    {
        if self.room < settlements {
            make_room(&mut self.stored, self.count, settlements)?;
            self.room = settlements;
        }
        Ok(())
    }

    /// Applies the item to the share, by what was seen of its class, and adds the settlement that it makes, if it makes one, for which
    /// there is room before the share changes.
    ///
    /// # Errors
    ///
    /// Which leave the share and the history as they were: `Memory`, but not if there is room; else `Contradiction` if the item doesn't fit,
    /// else `TooDeep` if its class's value would be too deep.
    pub fn take_seen(
        &mut self,
        share: &mut Share,
        item: Item,
        seen: Option<Seen>,
    ) -> Result<(), Cause>
        requires seen { IsSeen share.old item.to seen }
        requires kept { (family : Set) × AreKept family share.old.nodes share.old.id share.old self.old }
        requires entries { HasItemEntries item }
        ensures contradiction { result ≢ Err cause.Memory → (result ≡ Err (cause.Contradiction item.to)) ↔ (¬ Fits share.old item) }
        ensures too_deep { result ≢ Err cause.Memory → (result ≡ Err cause.TooDeep) ↔ (Fits share.old item × GoesTooDeep item (cell_at share.old item.to)) }
        ensures why { IfErr result (λ why. IsReason item share.old why) }
        ensures memory { result ≡ Err cause.Memory → self.old.room ≡ 0 }
        ensures room { OnOk result (self.old.room ≤ self.new.room + 1) }
        ensures unchanged { OnErr result ((share.new ≡ share.old) × (self.new ≡ self.old)) }
        ensures taken { OnOk result (IsTaken item share.old share.new self.old self.new) }
        ensures kept { OnOk result (StayKept share.old self.old share.new self.new) }
        ensures seen { OnOk result ((class : ℕ) (look : Option Seen) → IsSeen share.old class look → IsSeen share.new class look) }
    {
        // Numbers of settlements always fit.
        let count = self.len();
        prove!(count < u64::MAX / 2);
        room_for_one(&mut self.stored, self.count)?;
        let given = share.apply_seen(item, seen)?;
        if let Some(settlement) = given {
            store(&mut self.stored, self.count, self.nodes, settlement);
            self.count += 1;
            self.room = self.room.saturating_sub(1);
        }
        Ok(())
    }
}

// The news of the settlement of that number and of a class that is settled at the start, of owner `id` among `nodes`.
fn start_news(number: u64, start: StartValue, nodes: NodeCount, id: usize) -> News
    requires place { start.place < 2 ^ 32 }
    requires now { IsEntry start.now }
    requires id { id < nodes }
    ensures { result ≡ record { number = number; class = class_of_place nodes id start.place; was = Draw; now = start.now } }
{
    let class = start.place * nodes.get() as u64 + id as u64;
    News::of_codes(
        number,
        class,
        code_of_value(Value::Draw),
        code_of_value(start.now),
    )
}

// The news of the settlement of that number that is stored so, of owner `id` among `nodes`.
fn stored_news(number: u64, stored: Stored, nodes: NodeCount, id: usize) -> News
    requires { id < nodes }
    ensures { result ≡ settlement_stored nodes id number stored }
{
    let class = u64::from(stored.place) * nodes.get() as u64 + id as u64;
    News::of_codes(number, class, stored.was, stored.now)
}

// Makes room for `wanted` behind the first `count` of those stored. `Memory` leaves these as they were.
fn make_room(stored: &mut Segments<Stored>, count: u64, wanted: u64) -> Result<(), Memory>
    requires { count ≤ length stored.old }
    ensures same { take count stored.new ≡ take count stored.old }
    ensures within { length stored.old ≤ length stored.new }
    ensures room { OnOk result (count + wanted ≤ length stored.new) }
    ensures none { OnErr result (length stored.old < count + wanted) }
    ensures bound { count ≤ 2 ^ 56 }
{
    let there = stored.len() - count;
    for _more in there..wanted {
        stored.push(Stored {
            place: 0,
            was: 0,
            now: 0,
        })?;
    }
    Ok(())
}

// Makes room for one more. Inlined, since there mostly is some.
#[inline(always)]
fn room_for_one(stored: &mut Segments<Stored>, count: u64) -> Result<(), Memory>
    requires { count ≤ length stored.old }
    ensures same { take count stored.new ≡ take count stored.old }
    ensures within { length stored.old ≤ length stored.new }
    ensures room { OnOk result (count + 1 ≤ length stored.new) }
    ensures none { OnErr result (length stored.old < count + 1) }
    ensures bound { count ≤ 2 ^ 56 }
{
    if count < stored.len() {
        return Ok(());
    }
    make_room(stored, count, 1)
}

// Stores a settlement of a class among `nodes` owners behind the first `count`, if there is room.
fn store(stored: &mut Segments<Stored>, count: u64, nodes: NodeCount, settlement: Settlement)
    requires room { count < length stored.old }
    requires place { settlement.class / nodes < 2 ^ 32 }
    requires was { IsEntry settlement.was }
    requires now { IsEntry settlement.now }
    ensures one_more { (id first : ℕ) → owner_of nodes settlement.class ≡ id → settlement.number ≡ first + count → settlements_from nodes id first (take (count + 1) stored.new) ≡ settlements_from nodes id first (take count stored.old) ++ settlement ∷ [] }
    ensures same { length stored.new ≡ length stored.old }
{
    stored[count as usize] = Stored {
        place: quotient(settlement.class, nodes.get() as u64) as u32,
        was: code_of_value(settlement.was),
        now: code_of_value(settlement.now),
    };
}
