// Joining the ends of an inbox again: what was sent is what was received and then what is left, for each sender.
ghost use Rattle.std.specs.Prelude.{◌≡◌, ◌≢◌, ℕ, ◌<◌, ◌≤◌, ◌+◌, [], ◌∷◌, ◌++◌, length, map, vec_len, vec_capacity, slice_get, slice_index, Some, IfOk, IfErr};
ghost use Rattle.crossbeam_queue.specs.Passes.{view, IsPassOf, IsSamePass};
ghost use Rattle.dob_chan.specs.Inboxes.{taking};
ghost use Rattle.dob_chan.specs.Ends.{sent_by, place_of, taken_by, AreEndsOf, AreRejoined};
ghost use Rattle.dob_chan.specs.Rooms.{HasRoom, AreRooms, AreRoomy, AreFilled, HasOneMoreWaiting};

use crate::ends::{Inbox, RejoinFault, Rejoined, SendEnd, TakeEnd};
use crate::rule::{Ends, Left, Note};
use crossbeam_queue::Pass;
use dob_update::Batch;
use std::alloc::{AllocError, Global};
use std::sync::Wait;

/// Ends an inbox: for each sender, in order, what it sent is what was received of it and then what is left. The ends are
/// those of all its senders, in order. Where there is no memory for what is left, all ends come back as they were. Its
/// promises hold if it returns.
pub fn rejoin_inbox<R: Wait>(
    rt: &R,
    alloc: Global,
    sends: Vec<SendEnd>,
    take: TakeEnd,
) -> Result<Vec<Rejoined>, RejoinFault<Vec<SendEnd>>>
    requires { AreEndsOf take sends.items }
    ensures joined { IfOk result (λ joined. AreRejoined sends.items (taken_by take) joined.items) }
    ensures back { IfErr result (λ fault. (fault.sends ≡ sends) × (fault.take ≡ take)) }
{
    let Ok(mut joined) = make_rooms(alloc, &sends, &take.taken) else {
        return Err(RejoinFault { sends, take });
    };
    let TakeEnd {
        inbox,
        mut pass,
        taken: _,
    } = take;
    end_all(&inbox, &mut pass, sends);
    take_left(rt, &inbox, &mut pass, &mut joined);
    Ok(joined)
}

// Room for what is left of each sender.
fn make_rooms(alloc: Global, sends: &[SendEnd], taken: &[u64]) -> Result<Vec<Rejoined>, AllocError>
    requires { length sends.now ≡ length taken.now }
    ensures { IfOk result (λ rooms. (length rooms.items ≡ length sends.now) × AreRooms sends.now taken.now rooms.items) }
{
    let mut rooms = Vec::with_capacity(alloc, sends.len())?;
    for from in 0..sends.len() {
        let room = room_for(alloc, sends[from].sent, taken[from])?;
        rooms.push(room)?;
    }
    Ok(rooms)
}

// Room for what is left of `sent` batches if `received` were received.
fn room_for(alloc: Global, sent: u64, received: u64) -> Result<Rejoined, AllocError>
    ensures { IfOk result (HasRoom sent received) }
{
    let waiting = Vec::with_capacity(alloc, sent.saturating_sub(received) as usize)?;
    Ok(Rejoined {
        sent,
        received,
        waiting,
    })
}

// The taking pass learns what each sender sent.
fn end_all(inbox: &Inbox, pass: &mut Pass<Batch, Note>, sends: Vec<SendEnd>)
    requires seat { IsPassOf inbox.now pass.old }
    requires role { view pass.old ≡ taking (view pass.old).senders (view pass.old).opened (view pass.old).taken [] (view pass.old).told }
    requires ends { (k : ℕ) (send : SendEnd) → slice_get sends.items k ≡ Some send → (send.pass.table_id ≡ pass.old.table_id) × (place_of send ≡ k) }
    ensures seat { IsSamePass pass.old pass.new }
    ensures role { view pass.new ≡ taking (view pass.old).senders (view pass.old).opened (view pass.old).taken (map sent_by sends.items) (view pass.old).told }
{
    for send in sends {
        end_next(inbox, pass, send);
    }
}

// The taking pass learns what the next sender sent.
fn end_next(inbox: &Inbox, pass: &mut Pass<Batch, Note>, send: SendEnd)
    requires seat { IsPassOf inbox.now pass.old }
    requires role { view pass.old ≡ taking (view pass.old).senders (view pass.old).opened (view pass.old).taken (view pass.old).ended (view pass.old).told }
    requires end { (send.pass.table_id ≡ pass.old.table_id) × (place_of send ≡ length (view pass.old).ended) }
    ensures seat { IsSamePass pass.old pass.new }
    ensures role { view pass.new ≡ taking (view pass.old).senders (view pass.old).opened (view pass.old).taken ((view pass.old).ended ++ sent_by send ∷ []) (view pass.old).told }
{
    inbox.absorb::<Ends>(pass, send.pass);
}

// Takes the batches that are left, each into its sender's room.
fn take_left<R: Wait>(
    rt: &R,
    inbox: &Inbox,
    pass: &mut Pass<Batch, Note>,
    joined: &mut Vec<Rejoined>,
)
    requires seat { IsPassOf inbox.now pass.old }
    requires role { view pass.old ≡ taking (vec_len joined.old) (view pass.old).opened (view pass.old).taken (view pass.old).ended (view pass.old).told }
    requires ended { length (view pass.old).ended ≡ vec_len joined.old }
    requires room { AreRoomy (view pass.old).ended (view pass.old).taken joined.old.items }
    ensures { AreFilled (view pass.old).ended (view pass.old).taken joined.old.items joined.new.items }
{
    for _ in rt.forever() {
        let Some(batch) = inbox.pop_as::<Left, R>(rt, pass) else {
            return;
        };
        keep_left(joined, batch);
    }
    unreachable!()
}

// Puts a batch that is left into its sender's room.
fn keep_left(joined: &mut Vec<Rejoined>, batch: Batch)
    requires within { batch.from < vec_len joined.old }
    requires room { (room : Rejoined) → slice_get joined.old.items batch.from ≡ Some room → length room.waiting.items < vec_capacity room.waiting }
    ensures count { length joined.new.items ≡ length joined.old.items }
    ensures here { (old new : Rejoined) → slice_get joined.old.items batch.from ≡ Some old → slice_get joined.new.items batch.from ≡ Some new → HasOneMoreWaiting old batch new }
    ensures others { (k : ℕ) → k ≢ batch.from → slice_get joined.new.items k ≡ slice_get joined.old.items k }
{
    joined[batch.from()].keep(batch);
}

impl Rejoined {
    // Keeps a batch more that is left, for which there is room.
    fn keep(&mut self, batch: Batch)
        requires { length self.old.waiting.items < vec_capacity self.old.waiting }
        ensures { HasOneMoreWaiting self.old batch self.new }
    {
        self.waiting.push_reserved(batch);
    }
}
