// The cells of one owner's classes, and the items applied to them.
ghost use Rattle.std.specs.Prelude.{◌≡◌, ℕ, ◌+◌, ◌*◌, ◌/◌, ◌<◌, ◌≤◌, ◌↔◌, ◌^◌, Some, None, true, false, length};
ghost use Rattle.std.specs.Prelude.{slice_index_or, List, [], ◌∷◌, ◌++◌, ◌%◌, IfOk, OnOk, IfSome, MatchOption};
ghost use Rattle.dob_share.specs.Values.{Better};
ghost use Rattle.dob_share.specs.Owners.{class_of_place};
ghost use Rattle.dob_share.specs.Cells.{CellValue};
ghost use Rattle.dob_share.specs.Slots.{ArePooled, cell_in};
ghost use Rattle.dob_share.specs.declared.opening.Opening.{Opening as Opened};
ghost use Rattle.dob_share.specs.Openings.{ArePlaced, opening_of, cell_moves, settles, settled_among, new_slot, slots_of};
ghost use Rattle.dob_share.specs.Statuses.{open_at, opens_below};

use crate::cells::CellHead;
use crate::fault::Fault;
use crate::listed::opening_at;
use crate::news::{Item, Settlement};
use crate::opening::Opening;
use crate::owners::{divide, quotient};
use crate::statuses::Statuses;
use crate::steps::{apply_at, value_in};
use dob_distance::Value;
use dob_lists::Segments;
use dob_moves::Status;
use dob_pieces::Memory;
use dob_safra::NodeCount;
use std::alloc::Global;

/// What is seen of an own class that is open: the number of its cell, and where the cell's run begins.
#[derive(Clone, Copy)]
pub struct Seen {
    pub(crate) place: usize,
    pub(crate) start: u32,
}

/// The statuses of the classes k * nodes + id, for k from 0 on, of one owner `id` among `nodes`, and the cells of those that are open, in
/// their order.
#[derive(Drop)]
pub struct Share {
    id: usize,
    nodes: NodeCount,
    settled: u64,
    statuses: Statuses,
    slots: Segments<CellHead>,
    pool: Segments<u16>,
    ghost owner: { id < nodes },
    ghost opens: { length slots ≡ opens_below statuses.words statuses.places },
    ghost pooled: { ArePooled slots pool },
}

impl Share {
    ghost use Rattle.std.specs.Prelude.{Option};
    ghost use Rattle.dob_share.specs.declared.share.Seen.{Seen};
    ghost use Rattle.dob_share.specs.Shares.{places_of, IsOwn, IsNewShare, IsNewByOwn, HasValueNow, IsCellNumber, IsSeen, IsApplication};

    /// The share of owner `id` among `nodes`, of the classes that are listed, with what each is at the start. Only open
    /// classes have cells. It makes all the room that `apply` will need, in segments as long as those of the list.
    ///
    /// # Errors
    ///
    /// `Memory`, also where 2 to the power of 32 classes or more are listed, or where its open classes have as many moves.
    pub fn open(
        alloc: Global,
        openings: &Segments<Opening>,
        id: usize,
        nodes: NodeCount,
    ) -> Result<Share, Memory>
        requires { id < nodes }
        ensures { IfOk result (IsNewShare openings.now nodes id) }
    {
        Share::open_placed(alloc, openings, id, nodes, id, nodes)
    }

    /// The share of owner `id` among `nodes`, as above, where the openings are those of its own classes alone, in their order.
    ///
    /// # Errors
    ///
    /// `Memory`, as above.
    pub fn open_own(
        alloc: Global,
        own: &Segments<Opening>,
        id: usize,
        nodes: NodeCount,
    ) -> Result<Share, Memory>
        requires { id < nodes }
        ensures { IfOk result (IsNewByOwn own.now nodes id) }
    {
        Share::open_placed(alloc, own, 0, NodeCount::one(), id, nodes)
    }

    // The share of owner `id` among `nodes`, as above, where the openings of its classes are listed, in their order, as those of owner
    // `first` among `step`.
    fn open_placed(
        alloc: Global,
        listed: &Segments<Opening>,
        first: usize,
        step: NodeCount,
        id: usize,
        nodes: NodeCount,
    ) -> Result<Share, Memory>
        requires first { first < step }
        requires owner { id < nodes }
        ensures { IfOk result (λ share. (openings : List Opened) → ArePlaced listed.now step first openings nodes id → IsNewShare openings nodes id share) }
    {
        let count = listed.len();
        if count > u64::from(u32::MAX) {
            return Err(Memory);
        }
        let places = places_among(count, first as u64, step);
        let statuses = Statuses::open(alloc, listed, places, first, step)?;
        let segment_length = listed.segment_length();
        let mut slots = Segments::new(alloc, segment_length);
        let mut moves = 0;
        let mut settled = 0;
        for place in 0..places {
            let opening = opening_at(listed, place * step.get() as u64 + first as u64);
            let entries = push_slot(&mut slots, moves, opening)?;
            moves += entries;
            settled += settlements_of(opening.status);
        }
        let pool = Segments::filled(alloc, segment_length, moves, 0)?;
        Ok(Share {
            id,
            nodes,
            settled,
            statuses,
            slots,
            pool,
        })
    }

    /// How many classes it owns.
    #[tactic(auto, unfolding(crate::specs::Shares::places_of))]
    pub fn places(&self) -> u64
        ensures { result ≡ places_of self.now }
    {
        self.statuses.places()
    }

    /// The statuses of its classes, which it goes on to hold too.
    pub fn statuses(&self) -> Result<Statuses, Memory>
        ensures { IfOk result (λ statuses. statuses ≡ self.now.statuses) }
    {
        self.statuses.share()
    }

    /// How many settlements it has given: those of its opening, and one for each item that changed a value.
    pub fn settled(&self) -> u64
        ensures { result ≡ self.now.settled }
    {
        self.settled
    }

    /// The present value of an own class.
    #[tactic(auto, unfolding(crate::specs::Shares::IsOwn, crate::specs::Shares::status_at))]
    pub fn value(&self, class: u64) -> Value
        requires { IsOwn self.now class }
        ensures { HasValueNow self.now class result }
    {
        let place = quotient(class, self.nodes.get() as u64);
        match self.statuses.status(place) {
            Status::Caught => Value::Win(1),
            Status::Tried | Status::Stuck => Value::Loss(0),
            Status::Open => self.open_value(place),
        }
    }

    // The present value of the own class at a place, which is open.
    fn open_value(&self, place: u64) -> Value
        requires place { place < self.now.statuses.places }
        requires bit { open_at self.now.statuses.words place ≡ 1 }
        ensures { CellValue (cell_in self.now.slots self.now.pool (opens_below self.now.statuses.words place)) result }
    {
        let number = self.statuses.opens_before(place) as usize;
        value_in(&self.pool, self.slots[number])
    }

    /// Applies an item: a change of what one of its class's moves leads to. It answers the settlement of the class
    /// where the item changes its value.
    ///
    /// # Errors
    ///
    /// Which leave the share as it was: `Contradiction` if the item doesn't fit, else `TooDeep` if the
    /// class's value would have a distance above `MAX_DISTANCE`.
    pub fn apply(&mut self, item: Item) -> Result<Option<Settlement>, Fault>
        requires numbers { self.old.settled < 2 ^ 63 }
        ensures { IsApplication self.old item result self.new }
    {
        let seen = self.see(item.to);
        self.apply_seen(item, seen)
    }

    /// Applies an item as `apply` does, by what was seen of its class.
    ///
    /// # Errors
    ///
    /// As of `apply`.
    pub fn apply_seen(
        &mut self,
        item: Item,
        seen: Option<Seen>,
    ) -> Result<Option<Settlement>, Fault>
        requires numbers { self.old.settled < 2 ^ 63 }
        requires seen { IsSeen self.old item.to seen }
        ensures applied { IsApplication self.old item result self.new }
        ensures seen { (class : ℕ) (look : Option Seen) → IsSeen self.old class look → IsSeen self.new class look }
    {
        let Some(seen) = seen else {
            return Err(Fault::Contradiction(item.to));
        };
        match apply_at(
            &mut self.slots,
            &mut self.pool,
            seen,
            item.to,
            item.was,
            item.now,
        ) {
            Ok(None) => Ok(None),
            Ok(Some((was, now))) => {
                let number = self.settled;
                self.settled += 1;
                Ok(Some(Settlement {
                    number,
                    class: item.to,
                    was,
                    now,
                }))
            }
            Err(fault) => Err(fault),
        }
    }

    /// Finds the cell of an own, open class, so that several items can reuse it, which none of them changes; none of any other class.
    pub fn see(&self, class: u64) -> Option<Seen>
        ensures { IsSeen self.now class result }
    {
        self.see_cell(self.cell_number(class))
    }

    /// What `see` finds of a class, by the number that `cell_number` gave of it.
    pub fn see_cell(&self, number: Option<usize>) -> Option<Seen>
        requires { (class : ℕ) × IsCellNumber self.now class number }
        ensures { (class : ℕ) → IsCellNumber self.now class number → IsSeen self.now class result }
    {
        let Some(place) = number else {
            return None;
        };
        let start = self.slots[place].start;
        Some(Seen { place, start })
    }

    /// The number of the cell of an own class that is open, for which no cell is read; none of any other class.
    #[tactic(auto, unfolding(crate::specs::Shares::IsOwn, crate::specs::Shares::status_at, crate::specs::Shares::IsOwnOpen, crate::specs::Shares::open_number, crate::specs::Shares::IsCellNumber))]
    pub fn cell_number(&self, class: u64) -> Option<usize>
        ensures { IsCellNumber self.now class result }
    {
        let (place, owner) = divide(class, self.nodes.get() as u64);
        if owner != self.id as u64 {
            return None;
        }
        if place >= self.statuses.places() {
            return None;
        }
        match self.statuses.status(place) {
            Status::Open => Some(self.statuses.opens_before(place) as usize),
            Status::Caught | Status::Tried | Status::Stuck => None,
        }
    }
}

/// How many of that many classes an owner has: those with the numbers k * nodes + id.
#[tactic(auto, using(crate::proofs::Opened::places_count))]
pub fn places_among(count: u64, id: u64, nodes: NodeCount) -> u64
    requires { id < nodes }
    ensures { (place : ℕ) → (place < result) ↔ (place * nodes + id < count) }
{
    if count <= id {
        return 0;
    }
    (count - 1 - id) / nodes.get() as u64 + 1
}

// How many settlements the opening of a class with that status makes.
fn settlements_of(status: Status) -> u64
    ensures { result ≡ settles status }
{
    match status {
        Status::Open => 0,
        Status::Caught | Status::Tried | Status::Stuck => 1,
    }
}

// Appends the fresh slot of a class whose run begins at `start`, if it is open. It answers how many
// entries the run has, none if there is no slot.
fn push_slot(slots: &mut Segments<CellHead>, start: u64, opening: Opening) -> Result<u64, Memory>
    requires { start < 2 ^ 33 }
    ensures small { OnOk result (start + cell_moves opening < 2 ^ 33) }
    ensures few { OnOk result (cell_moves opening < 64) }
    ensures moves { IfOk result (λ moves. moves ≡ cell_moves opening) }
    ensures slots { OnOk result (slots.new ≡ slots.old ++ slots_of start opening) }
{
    match opening.status {
        Status::Open => {
            push_open(slots, start, opening.moves)?;
            Ok(u64::from(opening.moves))
        }
        Status::Caught | Status::Tried | Status::Stuck => Ok(0),
    }
}

// Appends the fresh slot of an open class with that many moves, whose run begins at `start`.
fn push_open(slots: &mut Segments<CellHead>, start: u64, moves: u8) -> Result<(), Memory>
    requires { moves < 64 }
    ensures small { OnOk result (start < 2 ^ 32) }
    ensures slots { OnOk result (slots.new ≡ slots.old ++ new_slot start moves ∷ []) }
{
    if start > u64::from(u32::MAX) {
        return Err(Memory);
    }
    slots.push(CellHead {
        start: start as u32,
        win: 0,
        left: moves,
        used: 0,
    })
}
