// What an event does to the nodes and the lane that it names.
ghost use Rattle.std.specs.Prelude.{◌≡◌, ◌≢◌, ◌+◌, ◌<◌, ◌≤◌, ◌^◌, None, Err, ◌↔◌, ◌⊎◌, [], ◌++◌, length, take, vec_len, vec_capacity};
ghost use Rattle.std.specs.Prelude.{true, false, IfErr, OnOk, OnErr};
ghost use Rattle.std.specs.List.{All};
ghost use Rattle.dob_share.specs.declared.cause.Cause.TheVariants as cause;
ghost use Rattle.dob_node.specs.Nodes.{outbox_to, IsSound, IsUnchanged, HasItemFault};
ghost use Rattle.dob_world.specs.Lanes.{LaneStays, IsBatchTo, HasListed, HasSentBatch, HasTakenBatch, HasReceivedFront};

use crate::lane::Lane;
use crate::link::Link;
use dob_node::{Cause, Node};
use dob_share::Item;
use dob_update::{Batch, BatchSize};

// Applies the first own item of a node, and lists it as applied. False if there is none.
//
// # Errors
//
// Which leave node and lane as they were: those of the node; `Memory`.
pub(crate) fn apply_own(node: &mut Node, lane: &mut Lane) -> Result<bool, Cause>
    requires sound { IsSound node.old }
    requires going { node.old.failed ≡ None }
    ensures none { (result ≡ Ok false) ↔ (node.old.own ≡ []) }
    ensures nothing { result ≡ Ok false → (node.new ≡ node.old) × (lane.new ≡ lane.old) }
    ensures applied { result ≡ Ok true → HasListed node.old lane.old node.new lane.new }
    ensures stopped { IfErr result (λ why. (why ≡ cause.Memory) ⊎ HasItemFault node.old why) }
    ensures unchanged { OnErr result (IsUnchanged node.old node.new × LaneStays lane.old lane.new) }
    ensures going { OnOk result (node.new.failed ≡ None) }
    ensures sound { IsSound node.new }
{
    let item = match node.first_own() {
        Some(item) => item,
        None => return Ok(false),
    };
    lane.applied.reserve(1)?;
    match node.apply_own() {
        Ok(_) => lane.applied.push_reserved(item),
        Err(cause) => return Err(cause),
    }
    Ok(true)
}

// Cuts a batch of at most `batch_size` items that the node has to send to the node `to`, which goes over the lane. False where
// there is nothing to send, or the lane's link has no room.
//
// # Errors
//
// Which leave node and lane as they were: those of the node; `Memory`.
pub(crate) fn post(
    node: &mut Node,
    lane: &mut Lane,
    to: usize,
    batch_size: BatchSize,
) -> Result<bool, Cause>
    requires sound { IsSound node.old }
    requires going { node.old.failed ≡ None }
    requires to { to < node.old.n }
    ensures none { (result ≡ Ok false) → ((outbox_to node.old to).items ≡ []) ⊎ (lane.old.link.capacity ≤ length lane.old.link.waiting) }
    ensures nothing { result ≡ Ok false → (node.new ≡ node.old) × (lane.new ≡ lane.old) }
    ensures some { result ≡ Ok true → ((outbox_to node.old to).items ≡ [] → ⊥) × (length lane.old.link.waiting < lane.old.link.capacity) }
    ensures posted { result ≡ Ok true → HasSentBatch to batch_size node.old lane.old node.new lane.new }
    ensures stopped { IfErr result (λ why. ((why ≡ cause.Counts) × (2 ^ 40 ≤ (outbox_to node.old to).next)) ⊎ (why ≡ cause.Memory)) }
    ensures moment { OnErr result (((outbox_to node.old to).items ≡ [] → ⊥) × (length lane.old.link.waiting < lane.old.link.capacity)) }
    ensures unchanged { OnErr result (IsUnchanged node.old node.new × LaneStays lane.old lane.new) }
    ensures going { OnOk result (node.new.failed ≡ None) }
    ensures sound { IsSound node.new }
{
    if lane.link.is_full() {
        return Ok(false);
    }
    let count = node.left_for(to).min(batch_size.get());
    if count == 0 {
        return Ok(false);
    }
    lane.sent.reserve(count)?;
    let Some(batch) = node.cut_for(to, batch_size)? else {
        unreachable!();
    };
    batch.list_items(&mut lane.sent);
    // It has room.
    let _ = lane.link.offer(batch);
    Ok(true)
}

// Takes the first batch that waits on the lane, and applies its items. False if none waits.
//
// # Errors
//
// `Memory`, which leaves node and lane as they were; those of the node at an item, after which only the items before it
// are applied and listed, and the batch no longer waits.
pub(crate) fn receive(node: &mut Node, lane: &mut Lane) -> Result<bool, Cause>
    requires sound { IsSound node.old }
    requires going { node.old.failed ≡ None }
    requires batches { All (IsBatchTo node.old.family node.old.n node.old.id) lane.old.link.waiting }
    ensures none { (result ≡ Ok false) ↔ (lane.old.link.waiting ≡ []) }
    ensures nothing { result ≡ Ok false → (node.new ≡ node.old) × (lane.new ≡ lane.old) }
    ensures received { result ≡ Ok true → HasTakenBatch node.old lane.old node.new lane.new }
    ensures unchanged { result ≡ Err cause.Memory → IsUnchanged node.old node.new × LaneStays lane.old lane.new }
    ensures front { IfErr result (λ why. why ≢ cause.Memory → HasReceivedFront node.old lane.old node.new lane.new why) }
    ensures going { OnOk result (node.new.failed ≡ None) }
    ensures sound { IsSound node.new }
{
    let Some(count) = lane.link.first_len() else {
        return Ok(false);
    };
    lane.applied.reserve(count)?;
    node.reserve(count)?;
    let Some(batch) = lane.link.next() else {
        unreachable!();
    };
    match node.apply_batch(&batch) {
        Ok(()) => batch.list_items(&mut lane.applied),
        Err(cause) => {
            list_first(&mut lane.applied, &batch, node.taken());
            return Err(cause);
        }
    }
    Ok(true)
}

// Lists the first `k` items of the batch; there is room for all of them.
fn list_first(list: &mut Vec<Item>, batch: &Batch, k: usize)
    requires within { k ≤ length batch.now.items }
    requires room { vec_len list.old + length batch.now.items ≤ vec_capacity list.old }
    ensures { list.new.items ≡ list.old.items ++ take k batch.now.items }
{
    let before = list.len();
    batch.list_items(list);
    list.truncate(before + k);
}
