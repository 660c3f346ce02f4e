// The ends of an inbox. Each tries once, and knows what it has sent or taken.
ghost use Rattle.std.specs.Prelude.{◌≡◌, ℕ, [], length, ◌≤◌, ◌<◌, vec_len, slice_index};
ghost use Rattle.std.specs.Arc.{arc_value};
ghost use Rattle.crossbeam_queue.specs.Passes.{view, IsPassOf};
ghost use Rattle.dob_chan.specs.Inboxes.{sending, taking, most_deliveries, batches_of};

use crate::rule::{InOrder, Note};
use crossbeam_queue::{Pass, RuledArrayQueue};
use dob_update::Batch;
use std::sync::Arc;

// The queue of an inbox.
pub(crate) type Inbox = RuledArrayQueue<Batch, Note, InOrder>;

/// The sending end of one of an inbox's senders. It counts the batches that it has sent.
#[derive(Drop)]
pub struct SendEnd {
    pub(crate) inbox: Arc<Inbox>,
    pub(crate) pass: Pass<Batch, Note>,
    pub(crate) from: usize,
    pub(crate) sent: u64,
    ghost seated: { IsPassOf (arc_value inbox) pass },
    ghost role: { view pass ≡ sending (view pass).senders from (view pass).sent (view pass).told },
    ghost counted: { sent ≡ length (view pass).sent },
    ghost few: { sent ≤ most_deliveries },
}

/// The taking end of an inbox. It counts the batches that it has taken of each sender.
#[derive(Drop)]
pub struct TakeEnd {
    pub(crate) inbox: Arc<Inbox>,
    pub(crate) pass: Pass<Batch, Note>,
    pub(crate) taken: Vec<u64>,
    ghost seated: { IsPassOf (arc_value inbox) pass },
    ghost role: { view pass ≡ taking (vec_len taken) (vec_len taken) (view pass).taken [] (view pass).told },
    ghost counted: { (k : ℕ) → k < vec_len taken → slice_index taken.items k ≡ length (batches_of k (view pass).taken) },
    ghost few: { (k : ℕ) → k < vec_len taken → slice_index taken.items k ≤ most_deliveries },
}

/// An inbox didn't take the batch, which comes back: it was full.
#[derive(Drop)]
pub struct Full {
    pub batch: Batch,
}

/// What went through an inbox from one sender: how many batches were sent and received, and those that are left. Only the
/// rejoining of an inbox makes one, and no other crate can change it.
#[derive(Drop)]
pub struct Rejoined {
    pub(crate) sent: u64,
    pub(crate) received: u64,
    pub(crate) waiting: Vec<Batch>,
}

impl Rejoined {
    /// How many batches were sent.
    pub fn sent(&self) -> u64
        ensures { result ≡ self.now.sent }
    {
        self.sent
    }

    /// How many of them were received.
    pub fn received(&self) -> u64
        ensures { result ≡ self.now.received }
    {
        self.received
    }

    /// Those that are left, in order.
    pub fn waiting(&self) -> &[Batch]
        ensures { result.now ≡ self.now.waiting.items }
    {
        &self.waiting
    }
}

/// No memory for the batches that are left: the sending end or ends and the taking end as they were.
#[derive(Drop)]
pub struct RejoinFault<S> {
    pub sends: S,
    pub take: TakeEnd,
}
