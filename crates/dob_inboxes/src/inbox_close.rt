// How the inboxes of a crew are ended: the ends of each come together again.
ghost use Rattle.std.specs.Prelude.{◌≡◌, ◌≢◌, ◌<◌, ℕ, IfOk, Some, map, vec_len};
ghost use Rattle.dob_update.specs.Batches.{BatchView};
ghost use Rattle.dob_chan.specs.Ends.{taken_by, AreEndsOf, AreRejoined};
ghost use Rattle.dob_endpoint.specs.Slots.{held_from, slot_row};
ghost use Rattle.dob_inboxes.specs.InboxClose.{outlet_end, outlet_slot, AreEnds, AreJoined};

use crate::rows::{empty_rows, join, push_each};
use dob_chan::{Rejoined, SendEnd, TakeEnd, rejoin_inbox};
use dob_endpoint::Outlet;
use dob_pieces::Memory;
use dob_safra::NodeCount;
use dob_update::Batch;
use std::alloc::Global;
use std::sync::Wait;

/// The ends of a node's outlets, and what is in their slots, in order.
///
/// # Errors
///
/// `Memory`, which gives the outlets up.
pub fn part_outlets(
    alloc: Global,
    outlets: Vec<Outlet>,
) -> Result<(Vec<SendEnd>, Vec<Option<Batch>>), Memory>
    ensures ends { IfOk result (λ parts. parts.0.items ≡ map outlet_end outlets.items) }
    ensures slots { IfOk result (λ parts. parts.1.items ≡ map outlet_slot outlets.items) }
{
    let mut ends = Vec::with_capacity(alloc, outlets.len())?;
    let mut slots = Vec::with_capacity(alloc, outlets.len())?;
    for outlet in outlets {
        let Outlet { end, slot } = outlet;
        ends.push(end)?;
        slots.push(slot)?;
    }
    Ok((ends, slots))
}

/// A place for each of `nodes` senders: what is in a node's taking slot stands at that of its sender, and nothing at the others.
///
/// # Errors
///
/// `Memory`, which gives the batch up.
pub fn spread_slot(
    alloc: Global,
    slot: Option<Batch>,
    nodes: NodeCount,
) -> Result<Vec<Option<Batch>>, Memory>
    ensures { IfOk result (λ slots. slots.items ≡ slot_row nodes slot) }
{
    let count = nodes.get();
    let mut left = slot;
    let mut slots = Vec::with_capacity(alloc, count)?;
    for from in 0..count {
        slots.push(take_of(&mut left, from))?;
    }
    Ok(slots)
}

// What is in the slot, if it is of that sender.
fn take_of(slot: &mut Option<Batch>, from: usize) -> Option<Batch>
    ensures taken { result ≡ held_from slot.old from }
    ensures others { (k : ℕ) → k ≢ from → held_from slot.new k ≡ held_from slot.old k }
{
    let is_of = match slot {
        Some(batch) => batch.from() == from,
        None => false,
    };
    if !is_of {
        return None;
    }
    slot.take()
}

/// Ends the inboxes: the ends that send to each stand in the row of its place, and its taking end at that place. What went
/// through each, by sender and then by receiver. Its promises hold if it returns.
///
/// # Errors
///
/// `Memory`, which gives the inboxes up.
pub fn rejoin_all<R: Wait>(
    rt: &R,
    alloc: Global,
    sends: Vec<Vec<SendEnd>>,
    takes: Vec<TakeEnd>,
) -> Result<Vec<Rejoined>, Memory>
    requires { AreEnds (vec_len takes) sends.items takes.items }
    ensures { IfOk result (λ links. AreJoined (vec_len takes) sends.items takes.items links.items) }
{
    let nodes = takes.len();
    let mut rows = empty_rows(alloc, nodes)?;
    for (row, take) in sends.into_iter().zip(takes) {
        let links = rejoin_one(rt, alloc, row, take)?;
        push_each(links, &mut rows)?;
    }
    join(alloc, rows, nodes)
}

// Ends an inbox.
fn rejoin_one<R: Wait>(
    rt: &R,
    alloc: Global,
    sends: Vec<SendEnd>,
    take: TakeEnd,
) -> Result<Vec<Rejoined>, Memory>
    requires { AreEndsOf take sends.items }
    ensures { IfOk result (λ links. AreRejoined sends.items (taken_by take) links.items) }
{
    match rejoin_inbox(rt, alloc, sends, take) {
        Ok(links) => Ok(links),
        Err(_) => Err(Memory),
    }
}
