// How the inboxes of a crew are laid: one for each node, with an outlet of each node to it.
ghost use Rattle.std.specs.Prelude.{◌≡◌, IfOk, length};
ghost use Rattle.dob_inboxes.specs.InboxOpen.{AreOutlets, IsOneLaid, AreLaid};

use crate::rows::{empty_rows, push_each};
use dob_chan::{SendEnd, inbox};
use dob_endpoint::{Inlet, Outlet};
use dob_pieces::Memory;
use dob_safra::NodeCount;
use dob_update::Capacity;
use std::alloc::Global;

/// The outlets of `nodes` nodes, in rows, and their inlets: the outlet of node i for node j sends to the inbox from which
/// the inlet of node j takes, as the sender i. Each inbox holds at most `capacity` batches.
pub fn open_inboxes(
    alloc: Global,
    nodes: NodeCount,
    capacity: Capacity,
) -> Result<(Vec<Vec<Outlet>>, Vec<Inlet>), Memory>
    ensures { IfOk result (λ laid. AreLaid capacity nodes laid.0.items laid.1.items) }
{
    let count = nodes.get();
    let mut rows = empty_rows(alloc, count)?;
    let mut inlets = Vec::with_capacity(alloc, count)?;
    for _ in 0..count {
        let (outlets, inlet) = lay_one(alloc, nodes, capacity)?;
        push_each(outlets, &mut rows)?;
        inlets.push(inlet)?;
    }
    Ok((rows, inlets))
}

// One inbox more: the outlet of each node to it, and its inlet.
fn lay_one(
    alloc: Global,
    nodes: NodeCount,
    capacity: Capacity,
) -> Result<(Vec<Outlet>, Inlet), Memory>
    ensures { IfOk result (λ laid. IsOneLaid capacity nodes laid.0.items laid.1) }
{
    let (sends, take) = inbox(alloc, nodes, capacity)?;
    let outlets = outlets_of(alloc, sends)?;
    Ok((outlets, Inlet::new(take)))
}

// An outlet with each of the ends.
fn outlets_of(alloc: Global, sends: Vec<SendEnd>) -> Result<Vec<Outlet>, Memory>
    ensures { IfOk result (λ outlets. AreOutlets sends.items outlets.items) }
{
    let mut outlets = Vec::with_capacity(alloc, sends.len())?;
    for send in sends {
        outlets.push(Outlet::new(send))?;
    }
    Ok(outlets)
}
