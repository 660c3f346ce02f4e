// How the endpoints of a crew are closed: the seats go back to the board, and the ends of each inbox come together again.
ghost use Rattle.std.specs.Prelude.{◌≡◌, ℕ, Some, IfOk, OnOk, map, slice_get, vec_len, []};
ghost use Rattle.dob_crew.specs.CrewClose.{IsCrew, HasAdded, ArePartsOf, AreClosed};
ghost use Rattle.dob_crew.specs.CrewRunners.{endpoint_of, node_of};

use dob_board::{Blackboard, Closed, NodeSeat};
use dob_chan::{Rejoined, SendEnd, TakeEnd};
use dob_endpoint::{Endpoint, Inlet};
use dob_inboxes::{empty_rows, part_outlets, push_each, rejoin_all, spread_slot};
use dob_node::Node;
use dob_pieces::Memory;
use dob_runner::Runner;
use dob_update::Batch;
use std::alloc::Global;
use std::sync::Wait;

/// What the endpoints of a crew leave: the words of its board, what went over each link, by sender and then by receiver, and what
/// lies in the slots of each node, one place a node.
#[derive(Drop)]
pub struct ClosedCrew {
    pub closed: Closed,
    pub links: Vec<Rejoined>,
    pub sending: Vec<Vec<Option<Batch>>>,
    pub taking: Vec<Vec<Option<Batch>>>,
}

// The endpoints of some nodes of a crew, taken apart. The sending ends stand in the rows of the nodes to which they send.
#[derive(Drop)]
struct Parts {
    seats: Vec<NodeSeat>,
    sends: Vec<Vec<SendEnd>>,
    takes: Vec<TakeEnd>,
    sending: Vec<Vec<Option<Batch>>>,
    taking: Vec<Vec<Option<Batch>>>,
}

/// Closes the crew of these runners with its board: their nodes, in order, and what their endpoints leave. Its promises hold if
/// it returns.
///
/// # Errors
///
/// `Memory`, which gives the crew up.
pub fn close_runners<R: Wait>(
    rt: &R,
    alloc: Global,
    board: Blackboard,
    runners: Vec<Runner>,
) -> Result<(Vec<Node>, ClosedCrew), Memory>
    requires { IsCrew board (map endpoint_of runners.items) }
    ensures nodes { IfOk result (λ closed. closed.0.items ≡ map node_of runners.items) }
    ensures ended { IfOk result (λ closed. AreClosed board.nodes (map endpoint_of runners.items) closed.1) }
{
    let (nodes, parts) = part_runners(alloc, runners)?;
    let Parts {
        seats,
        sends,
        takes,
        sending,
        taking,
    } = parts;
    let closed = board.close(seats);
    let links = rejoin_all(rt, alloc, sends, takes)?;
    let ended = ClosedCrew {
        closed,
        links,
        sending,
        taking,
    };
    Ok((nodes, ended))
}

// The node of each runner, and its endpoint taken apart. Out of memory the runners are given up.
fn part_runners(alloc: Global, runners: Vec<Runner>) -> Result<(Vec<Node>, Parts), Memory>
    requires { (k : ℕ) (runner : _) → slice_get runners.items k ≡ Some runner → runner.endpoint.seat.nodes ≡ vec_len runners }
    ensures nodes { IfOk result (λ parted. parted.0.items ≡ map node_of runners.items) }
    ensures parts { IfOk result (λ parted. ArePartsOf (vec_len runners) (map endpoint_of runners.items) parted.1) }
{
    let mut parts = no_parts(alloc, runners.len())?;
    let mut nodes = Vec::new(alloc);
    for runner in runners {
        let Runner { node, endpoint, .. } = runner;
        nodes.push(node)?;
        parts.add(alloc, endpoint)?;
    }
    Ok((nodes, parts))
}

// The parts of no endpoints of a crew of `count`.
fn no_parts(alloc: Global, count: usize) -> Result<Parts, Memory>
    ensures { IfOk result (ArePartsOf count []) }
{
    let sends = empty_rows(alloc, count)?;
    Ok(Parts {
        seats: Vec::new(alloc),
        sends,
        takes: Vec::new(alloc),
        sending: Vec::new(alloc),
        taking: Vec::new(alloc),
    })
}

impl Parts {
    // Takes one endpoint more apart.
    fn add(&mut self, alloc: Global, endpoint: Endpoint) -> Result<(), Memory>
        requires { endpoint.seat.nodes ≡ vec_len self.old.sends }
        ensures { OnOk result (HasAdded self.old endpoint self.new) }
    {
        let Endpoint {
            seat,
            outlets,
            inlet,
        } = endpoint;
        let Inlet { end: take, slot } = inlet;
        let taking = spread_slot(alloc, slot, seat.nodes)?;
        self.seats.push(seat)?;
        let (sends, sending) = part_outlets(alloc, outlets)?;
        push_each(sends, &mut self.sends)?;
        self.sending.push(sending)?;
        self.takes.push(take)?;
        self.taking.push(taking)?;
        Ok(())
    }
}
