// The parts of a world as it is opened: its nodes and its lanes.
ghost use Rattle.std.specs.Prelude.{◌*◌, IfOk};
ghost use Rattle.dob_history.specs.Openings.{AreOpenings};
ghost use Rattle.dob_world.specs.Start.{AreOpenedNodes, AreEmptyLanes};

use crate::lane::Lane;
use dob_lists::Segments;
use dob_node::{Node, Opening};
use dob_pieces::{Family, Memory};
use dob_safra::NodeCount;
use dob_update::Capacity;
use std::alloc::Global;

// The nodes of all owners, as they are opened.
pub(crate) fn open_nodes(
    alloc: Global,
    openings: &Segments<Opening>,
    family: Family,
    node_count: NodeCount,
) -> Result<Vec<Node>, Memory>
    requires { AreOpenings family openings.now }
    ensures { IfOk result (λ nodes. AreOpenedNodes openings.now family node_count node_count nodes.items) }
{
    let count = node_count.get();
    let mut nodes = Vec::new(alloc);
    for id in 0..count {
        nodes.push(Node::open(alloc, openings, family, id, node_count)?)?;
    }
    Ok(nodes)
}

// The lanes from each node to each, empty.
pub(crate) fn open_lanes(
    alloc: Global,
    node_count: NodeCount,
    capacity: Capacity,
) -> Result<Vec<Lane>, Memory>
    ensures { IfOk result (λ lanes. AreEmptyLanes capacity (node_count * node_count) lanes.items) }
{
    let count = node_count.get();
    let mut lanes = Vec::new(alloc);
    for _place in 0..count * count {
        lanes.push(Lane::open(alloc, capacity)?)?;
    }
    Ok(lanes)
}
