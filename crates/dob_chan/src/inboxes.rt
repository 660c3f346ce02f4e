// Opening an inbox, sending and taking.
ghost use Rattle.std.specs.Prelude.{◌≡◌, ℕ, suc, ◌<◌, ◌≤◌, ◌+◌, [], ◌∷◌, ◌++◌, length, vec_len, vec_capacity, slice_get, slice_index, Some, IfOk, OnOk, IfErr, MatchOption};
ghost use Rattle.std.specs.Arc.{arc_value};
ghost use Rattle.crossbeam_queue.specs.Passes.{view, IsPassOf, IsSamePass, ruled_capacity};
ghost use Rattle.dob_chan.specs.Inboxes.{most_deliveries, batches_of, sending, taking, untold, HasSent, HasReceived};
ghost use Rattle.dob_chan.specs.Ends.{sent_by, place_of, senders_beside, taken_by, taken_of, senders_of, capacity_of, IsEndOpened, AreOpened, AreEndsOf, SendsToSame, TakesFromSame, WasFull, WasEmpty, send_told, take_told};

use crate::ends::{Full, Inbox, SendEnd, TakeEnd};
use crate::rule::{Counts, Note, Opens, Sends, Takes};
use crossbeam_queue::Pass;
use dob_pieces::Memory;
use dob_safra::NodeCount;
use dob_update::{Batch, Capacity};
use std::alloc::{AllocError, Global};
use std::sync::{Arc, Wait};

/// A new inbox for batches of `nodes` nodes, that holds at most `capacity` of them: the sending end of each node, in order, and
/// the taking end. `Memory` if there is none for them.
pub fn inbox(
    alloc: Global,
    nodes: NodeCount,
    capacity: Capacity,
) -> Result<(Vec<SendEnd>, TakeEnd), Memory>
    ensures senders { IfOk result (λ ends. (senders_of ends.1 ≡ nodes) × AreEndsOf ends.1 ends.0.items) }
    ensures opened { IfOk result (λ ends. AreOpened ends.1.pass capacity nodes ends.0.items) }
    ensures nothing { IfOk result (λ ends. taken_by ends.1 ≡ []) }
{
    let (queue, mut pass) = Inbox::ruled(alloc, capacity.get())?;
    let inbox = Arc::new(alloc, queue)?;
    let nodes = nodes.get();
    count(&inbox, &mut pass, nodes);
    let sends = open_all(alloc, &inbox, &mut pass, nodes)?;
    let taken = vec![in alloc; 0; nodes]?;
    Ok((sends, TakeEnd { inbox, pass, taken }))
}

// Tells the taking pass, and so the passes to come, how many senders there will be.
fn count(inbox: &Inbox, pass: &mut Pass<Batch, Note>, nodes: usize)
    requires seat { IsPassOf inbox.now pass.old }
    requires role { view pass.old ≡ taking 0 0 [] [] untold }
    ensures seat { IsPassOf inbox.now pass.new }
    ensures role { view pass.new ≡ taking nodes 0 [] [] untold }
{
    for _ in 0..nodes {
        inbox.another::<Counts>(pass);
    }
}

// The ends of all senders, in order.
fn open_all(
    alloc: Global,
    inbox: &Arc<Inbox>,
    pass: &mut Pass<Batch, Note>,
    nodes: usize,
) -> Result<Vec<SendEnd>, AllocError>
    requires seat { IsPassOf (arc_value inbox.now) pass.old }
    requires role { view pass.old ≡ taking nodes 0 [] [] untold }
    ensures seat { IsPassOf (arc_value inbox.now) pass.new }
    ensures role { IfOk result (λ _. view pass.new ≡ taking nodes nodes [] [] untold) }
    ensures opened { IfOk result (λ sends. (length sends.items ≡ nodes) × AreOpened pass.new (ruled_capacity (arc_value inbox.now)) nodes sends.items) }
{
    let mut sends = Vec::with_capacity(alloc, nodes)?;
    for from in 0..nodes {
        let send = open_next(inbox, pass, from, nodes)?;
        sends.push(send)?;
    }
    Ok(sends)
}

fn open_next(
    inbox: &Arc<Inbox>,
    pass: &mut Pass<Batch, Note>,
    from: usize,
    nodes: usize,
) -> Result<SendEnd, AllocError>
    requires seat { IsPassOf (arc_value inbox.now) pass.old }
    requires role { view pass.old ≡ taking nodes from [] [] untold }
    requires within { from < nodes }
    ensures seat { IsSamePass pass.old pass.new }
    ensures role { IfOk result (λ _. view pass.new ≡ taking nodes (suc from) [] [] untold) }
    ensures opened { IfOk result (IsEndOpened pass.old (ruled_capacity (arc_value inbox.now)) nodes from) }
{
    let shared = Arc::try_clone(inbox)?;
    let own = inbox.another::<Opens>(pass);
    Ok(SendEnd {
        inbox: shared,
        pass: own,
        from,
        sent: 0,
    })
}

impl SendEnd {
    /// The place of the end among all senders of its inbox: it is for the batches of that owner.
    pub fn from(&self) -> usize
        ensures { result ≡ place_of self.now }
    {
        self.from
    }

    /// How many batches the end has sent.
    pub fn sent_count(&self) -> u64
        ensures { result ≡ length (sent_by self.now) }
    {
        self.sent
    }

    /// Sends a batch of its owner, if the inbox has room; tries once. The end learns what all had sent and what was taken when
    /// its batch went in. `Full` with the batch only if the inbox held its capacity, of all senders together, at some moment
    /// after the end's last batch; then nothing is sent. Its promises hold if it returns.
    pub fn offer<R: Wait>(&mut self, rt: &R, batch: Batch) -> Result<(), Full>
        requires few { length (sent_by self.old) < most_deliveries }
        requires own { batch.from ≡ place_of self.old }
        ensures same { SendsToSame self.old self.new }
        ensures sent { OnOk result (sent_by self.new ≡ sent_by self.old ++ batch ∷ []) }
        ensures told { OnOk result (HasSent (place_of self.old) batch (sent_by self.new) (send_told self.old) (send_told self.new)) }
        ensures back { IfErr result (λ full. (full.batch ≡ batch) × (sent_by self.new ≡ sent_by self.old) × (send_told self.new ≡ send_told self.old)) }
        ensures full { IfErr result (λ full. WasFull (capacity_of self.old) (senders_beside self.old) (place_of self.old) (sent_by self.old) (send_told self.old)) }
    {
        match self.inbox.push_as::<Sends, R>(rt, &mut self.pass, batch) {
            Ok(()) => {
                self.sent += 1;
                Ok(())
            }
            Err(batch) => Err(Full { batch }),
        }
    }
}

impl TakeEnd {
    /// How many batches the end has taken of each sender.
    pub fn taken_counts(&self) -> &[u64]
        ensures { (length result.now ≡ senders_of self.now) × ((k : ℕ) → k < length result.now → slice_index result.now k ≡ length (taken_of self.now k)) }
    {
        &self.taken
    }

    /// Takes the next batch, if the inbox has one; tries once. The end learns what had been sent when the batch came out.
    /// `None` only if the inbox was empty at some moment after the end's last batch. Its promises hold if it returns.
    pub fn next<R: Wait>(&mut self, rt: &R) -> Option<Batch>
        ensures same { TakesFromSame self.old self.new }
        ensures next { MatchOption result
            ((taken_by self.new ≡ taken_by self.old) × (take_told self.new ≡ take_told self.old) × WasEmpty (taken_by self.old) (take_told self.old))
            (λ batch. (batch.from < senders_of self.old) × (taken_by self.new ≡ taken_by self.old ++ batch ∷ [])
            × HasReceived (taken_by self.new) (take_told self.old) (take_told self.new)) }
    {
        let batch = self.inbox.pop_as::<Takes, R>(rt, &mut self.pass)?;
        self.taken[batch.from()] += 1;
        Some(batch)
    }
}
