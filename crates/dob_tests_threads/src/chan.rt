// Inboxes in one thread: what has no room comes back, and is taken when the one before it is out. What is left in the end, and in which order, is a clause
// of `dob_chan`, as is how many went through. The batches have two of the five items of a settlement for owner 1 of two, of the classes of lions alone.
ghost use Rattle.dob_chan.specs.Ends.{AreStill, SendsToSame, TakesFromSame};

use crate::sets::classes_of;
use dob_chan::{Rejoined, SendEnd, TakeEnd, inbox, pair, rejoin, rejoin_inbox};
use dob_safra::NodeCount;
use dob_share::{News, Settlement};
use dob_unmove::back;
use dob_update::{Batch, BatchSize, Capacity, Outbox};
use dob_value::Value;
use std::alloc::Global;
use std::process::Abort;
use std::sync::Wait;

// A settlement of a class that five moves of positions of owner 1 lead into.
const SETTLED: Settlement = Settlement {
    number: 0,
    class: 16,
    was: Value::Draw,
    now: Value::Win(7),
};

// What that owner has to send.
fn filled(rt: &impl Abort, alloc: Global, from: usize) -> Outbox {
    let classes = classes_of(rt, alloc, "000");
    let settlement = SETTLED;
    assert!(rt; settlement.class < classes.class_count());
    let predecessors = back(alloc, &classes, settlement.class).expect(rt, "memory");
    let mut outbox = Outbox::new(alloc, classes.family, 2, from, 1);
    outbox.reserve(predecessors.len()).expect(rt, "memory");
    let news = News::of(settlement).expect(rt, "values of a table");
    outbox.add_targets(&news, &predecessors);
    outbox
}

// The next batch.
fn cut(rt: &impl Abort, outbox: &mut Outbox) -> Batch {
    assert!(rt; outbox.cut_count() < 3);
    let two = BatchSize::new(2).expect(rt, "a size");
    let batch = outbox.cut(two).expect(rt, "memory");
    batch.expect(rt, "a batch")
}

// The first two batches of owner 0, and the first one of owner 1 between them.
fn three_batches(rt: &impl Abort, alloc: Global) -> (Batch, Batch, Batch) {
    let mut outbox = filled(rt, alloc, 0);
    let mut other = filled(rt, alloc, 1);
    let first = cut(rt, &mut outbox);
    let second = cut(rt, &mut outbox);
    (first, cut(rt, &mut other), second)
}

// Offers the batch once. It comes back where the inbox doesn't take it.
fn offer<R: Wait>(rt: &R, end: &mut SendEnd, batch: Batch) -> Option<Batch>
    ensures { SendsToSame end.old end.new }
{
    if end.sent_count() >= 1 << 40 || end.from() != batch.from() {
        return Some(batch);
    }
    match end.offer(rt, batch) {
        Ok(()) => None,
        Err(full) => Some(full.batch),
    }
}

// Whether so many batches were sent and received, and so many are left.
fn has_passed(joined: &Rejoined, sent: u64, received: u64, left: usize) -> bool {
    joined.sent() == sent && joined.received() == received && joined.waiting().len() == left
}

// Whether the inbox for one has room for the first batch alone, hands the second one back, and gives the first one.
fn has_room_for_one<R: Wait>(
    rt: &R,
    send: &mut SendEnd,
    take: &mut TakeEnd,
    first: Batch,
    second: Batch,
) -> bool
    ensures send { SendsToSame send.old send.new }
    ensures take { TakesFromSame take.old take.new }
{
    if take.next(rt).is_some() || offer(rt, send, first).is_some() {
        return false;
    }
    let Some(back) = offer(rt, send, second) else {
        return false;
    };
    if back.number() != 1 {
        return false;
    }
    let Some(taken) = take.next(rt) else {
        return false;
    };
    taken.number() == 0 && offer(rt, send, back).is_none()
}

#[test]
fn one_batch_fits_into_an_inbox_for_one(rt: HostRuntime) {
    let (first, _other, second) = three_batches(&rt, rt.alloc());
    let one = Capacity::new(1).expect(&rt, "a capacity");
    let (mut send, mut take) = pair(rt.alloc(), one).expect(&rt, "an inbox");
    assert!(rt; has_room_for_one(&rt, &mut send, &mut take, first, second));
    assert!(rt; take.taken_counts() == [1].as_slice());
    let joined = rejoin(&rt, rt.alloc(), send, take);
    let joined = joined.ok().expect(&rt, "the inbox's end");
    assert!(rt; has_passed(&joined, 2, 1, 1));
}

// Offers the batch once by its sender's end.
fn offer_by_sender<R: Wait>(rt: &R, sends: &mut Vec<SendEnd>, batch: Batch) -> Option<Batch>
    ensures { AreStill sends.old.items sends.new.items }
{
    let from = batch.from();
    if from >= sends.len() {
        return Some(batch);
    }
    offer(rt, &mut sends[from], batch)
}

// Offers a batch that has no room, takes one, and offers it again.
fn makes_room<R: Wait + Abort>(rt: &R, sends: &mut Vec<SendEnd>, take: &mut TakeEnd, batch: Batch)
    ensures sends { AreStill sends.old.items sends.new.items }
    ensures take { TakesFromSame take.old take.new }
{
    let back = offer_by_sender(rt, sends, batch);
    let back = back.expect(rt, "the batch that has no room");
    assert!(rt; back.number() == 1);
    let taken = take.next(rt);
    let taken = taken.expect(rt, "the first batch");
    assert!(rt; (taken.from(), taken.number()) == (0, 0));
    assert!(rt; offer_by_sender(rt, sends, back).is_none());
}

#[test]
fn two_senders_share_an_inbox_for_two(rt: HostRuntime) {
    let (first, other, second) = three_batches(&rt, rt.alloc());
    let two = NodeCount::new(2).expect(&rt, "two");
    let capacity = Capacity::new(2).expect(&rt, "a capacity");
    let (mut sends, mut take) = inbox(rt.alloc(), two, capacity).expect(&rt, "an inbox");
    assert!(rt; offer_by_sender(&rt, &mut sends, first).is_none());
    assert!(rt; offer_by_sender(&rt, &mut sends, other).is_none());
    makes_room(&rt, &mut sends, &mut take, second);
    let joined = rejoin_inbox(&rt, rt.alloc(), sends, take);
    let joined = joined.ok().expect(&rt, "the inbox's end");
    assert!(rt; joined.len() == 2);
    assert!(rt; has_passed(&joined[0], 2, 1, 1));
    assert!(rt; has_passed(&joined[1], 1, 0, 1));
}
