// The rule of an inbox: of each sender, what was sent is what was taken and then what the inbox holds, in order.
use crossbeam_queue::protocol::{Join, Lesson, Outcome, Protocol, Split};
use dob_update::Batch;
use std::collections::LinkedList;

// What was learned of an inbox: the batches that had been sent, by all senders, and those that had been taken. No value of it is
// made.
pub(crate) struct Told {
    pub sent: LinkedList<Batch>,
    pub taken: LinkedList<Batch>,
}

// What a pass of an inbox may do, send as one of the senders or take, what it has sent and taken, and what it has learned. The
// taking pass also knows how many senders' passes were made, and what those sent that have ended. No value of it is made.
pub(crate) struct Note {
    pub senders: usize,
    pub sends: bool,
    pub from: usize,
    pub sent: LinkedList<Batch>,
    pub takes: bool,
    pub opened: usize,
    pub taken: LinkedList<Batch>,
    pub ended: LinkedList<LinkedList<Batch>>,
    pub told: Told,
}

// The rule: the batches of each sender come out in the order in which they went in, each once.
pub(crate) struct InOrder;

impl Protocol<Batch, Note> for InOrder {
    ghost use Rattle.std.specs.Prelude.{[]};
    ghost use Rattle.dob_chan.specs.Inboxes.{taking, untold, IsDelivered};

    ghost holds = { IsDelivered };

    ghost first = { taking 0 0 [] [] untold };
}

/// The inbox is for one sender more. The new pass may do nothing.
pub(crate) struct Counts;

impl Split<Note> for Counts {
    ghost use Rattle.std.specs.Prelude.{suc};
    ghost use Rattle.dob_chan.specs.Inboxes.{taking, resting};

    ghost left = { λ v. taking (suc v.senders) v.opened v.taken v.ended v.told };

    ghost right = { λ v. resting };
}

/// The new pass is that of the next sender.
pub(crate) struct Opens;

impl Split<Note> for Opens {
    ghost use Rattle.std.specs.Prelude.{suc, []};
    ghost use Rattle.dob_chan.specs.Inboxes.{taking, sending, untold};

    ghost left = { λ v. taking v.senders (suc v.opened) v.taken v.ended v.told };

    ghost right = { λ v. sending v.senders v.opened [] untold };
}

/// The next sender has ended, and the taking pass knows what it sent.
pub(crate) struct Ends;

impl Join<Note> for Ends {
    ghost use Rattle.std.specs.Prelude.{◌++◌, ◌∷◌, []};
    ghost use Rattle.dob_chan.specs.Inboxes.{taking, resting};

    ghost both = { λ v w. taking v.senders v.opened v.taken (v.ended ++ w.sent ∷ []) v.told };

    ghost spent = { resting };
}

/// What a send shows: the batch is the last that was sent, and all that happened before; and what it learns where the inbox is
/// full.
pub(crate) struct Sends;

impl Outcome<Batch, Note> for Sends {
    ghost use Rattle.std.specs.Prelude.{◌≡◌, [], ◌∷◌, ◌++◌};
    ghost use Rattle.dob_chan.specs.Inboxes.{sending, HasSent};

    ghost then = { λ v x w. (w ≡ sending v.senders v.from (v.sent ++ x ∷ []) w.told) × HasSent v.from x w.sent v.told w.told };
}

impl Lesson<Batch, Note> for Sends {
    ghost use Rattle.dob_chan.specs.Inboxes.{AreHeldSince};

    ghost fact = { λ v held. AreHeldSince v.senders v.from v.sent v.told held };
}

/// What a receipt shows: the batch is the last that was taken, and of one of the senders, and all that happened before; and
/// what it learns where the inbox is empty.
pub(crate) struct Takes;

impl Outcome<Batch, Note> for Takes {
    ghost use Rattle.std.specs.Prelude.{◌≡◌, [], ◌∷◌, ◌++◌, length, ◌<◌, ◌≤◌};
    ghost use Rattle.dob_chan.specs.Inboxes.{most_deliveries, batches_of, taking, HasReceived};

    ghost then = { λ v x w. (w ≡ taking v.senders v.opened (v.taken ++ x ∷ []) v.ended w.told) × (x.from < v.senders)
        × (length (batches_of x.from w.taken) ≤ most_deliveries) × HasReceived w.taken v.told w.told };
}

impl Lesson<Batch, Note> for Takes {
    ghost use Rattle.dob_chan.specs.Inboxes.{AreNext};

    ghost fact = { λ v held. AreNext v.taken v.told held };
}

/// What a receipt shows where senders have ended: no more is taken of them than they sent; and where the inbox is empty,
/// what was taken of them is what they sent.
pub(crate) struct Left;

impl Outcome<Batch, Note> for Left {
    ghost use Rattle.std.specs.Prelude.{◌≡◌, [], ◌∷◌, ◌++◌, length, ◌<◌, ◌≤◌};
    ghost use Rattle.dob_chan.specs.Inboxes.{batches_of, taking, sent_by_ended};

    ghost then = { λ v x w. (w ≡ taking v.senders v.opened (v.taken ++ x ∷ []) v.ended w.told) × (x.from < v.senders)
        × (x.from < length v.ended → length (batches_of x.from w.taken) ≤ length (sent_by_ended v.ended x.from)) };
}

impl Lesson<Batch, Note> for Left {
    ghost use Rattle.dob_chan.specs.Inboxes.{AreLeft};

    ghost fact = { λ v held. AreLeft v.taken v.ended held };
}
