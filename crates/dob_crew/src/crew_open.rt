// How a crew begins: with a board, and for each of its nodes a seat, its ends of the inboxes, and a runner.
ghost use Rattle.std.specs.Prelude.{◌≡◌, ℕ, IfOk, IfErr, OnOk, Some, vec_len, map, replicate, length, slice_get};
ghost use Rattle.std.specs.List.{AllZip};
ghost use Rattle.dob_board.specs.Rule.{fresh};
ghost use Rattle.dob_board.specs.Seats.{AreSeats, stand_of};
ghost use Rattle.dob_inboxes.specs.InboxOpen.{AreLaid};
ghost use Rattle.dob_crew.specs.CrewClose.{IsCrew};
ghost use Rattle.dob_crew.specs.CrewOpen.{IsNewEndpoint, AreNewEndpoints};
ghost use Rattle.dob_crew.specs.CrewRunners.{IsRunnerOf, IsNewCrew};
ghost use Rattle.dob_crew.specs.Faults.{AreWithin, HasCrewFault};
ghost use Rattle.dob_crew.specs.Seating.{AreSeated, CanSeat, CanSeatAll};

use crate::limits::CrewSizes;
use dob_board::{Blackboard, NodeSeat};
use dob_classes::Classes;
use dob_endpoint::{Endpoint, Inlet, Outlet};
use dob_inboxes::open_inboxes;
use dob_node::Node;
use dob_pieces::Memory;
use dob_runner::{Pace, Runner};
use dob_safra::NodeCount;
use dob_share::BuildFault;
use dob_update::{BatchSize, Capacity};
use rayon::prelude::*;
use std::alloc::Global;
use std::thread::Threads;

/// A board, and the runner of each of `nodes` nodes that own the classes, in order, before their first turn. They cut batches
/// of at most `batch_size` items, and each one's inbox holds at most `capacity` batches. The nodes are opened by threads, side
/// by side.
///
/// # Errors
///
/// Tested in this order: `Nodes` if `nodes` isn't 1 to 16; `Sizes` if `batch_size` isn't 1 to 4096 or `capacity`
/// not 1 to 1024; `Memory`.
pub fn crew(
    rt: &(impl Threads + Sync),
    alloc: Global,
    classes: &Classes,
    nodes: usize,
    batch_size: usize,
    capacity: usize,
) -> Result<(Blackboard, Vec<Runner>), BuildFault>
    ensures opened { IfOk result (λ opened. IsNewCrew classes.now.family nodes batch_size capacity opened.0 opened.1.items) }
    ensures within { OnOk result (AreWithin nodes batch_size capacity) }
    ensures fault { IfErr result (HasCrewFault nodes batch_size capacity) }
{
    let sizes = CrewSizes::new(nodes, batch_size, capacity)?;
    let opened = crew_of(rt, alloc, classes, &sizes)?;
    Ok(opened)
}

/// A board and the runners of its nodes as above, of these sizes.
pub fn crew_of(
    rt: &(impl Threads + Sync),
    alloc: Global,
    classes: &Classes,
    sizes: &CrewSizes,
) -> Result<(Blackboard, Vec<Runner>), Memory>
    ensures { IfOk result (λ opened. IsNewCrew classes.now.family sizes.now.nodes sizes.now.batch_size sizes.now.capacity opened.0 opened.1.items) }
{
    let (board, endpoints) = open_endpoints(alloc, sizes.nodes, sizes.capacity)?;
    let runners = runners_of(rt, alloc, classes, endpoints, sizes.nodes, sizes.batch_size)?;
    Ok((board, runners))
}

// The runner of each endpoint of `nodes`. As many nodes are opened side by side as there are processors, and each finds what is known of its own classes.
fn runners_of(
    rt: &(impl Threads + Sync),
    alloc: Global,
    classes: &Classes,
    endpoints: Vec<Endpoint>,
    nodes: NodeCount,
    batch_size: BatchSize,
) -> Result<Vec<Runner>, Memory>
    requires new { (capacity : ℕ) × AreNewEndpoints capacity endpoints.items }
    requires nodes { (k : ℕ) (endpoint : _) → slice_get endpoints.items k ≡ Some endpoint → endpoint.seat.nodes ≡ nodes }
    ensures { IfOk result (λ runners. AllZip (IsRunnerOf classes.now.family batch_size) endpoints.items runners.items) }
{
    let pace = Pace::open(alloc, nodes)?;
    let pace = &pace;
    endpoints
        .into_par_iter()
        .with_min_len(1)
        .map(
            |endpoint: Endpoint| -> Result<Runner, Memory>
                requires { ((capacity : ℕ) × IsNewEndpoint capacity endpoint) × (endpoint.seat.nodes ≡ nodes) }
                ensures { IfOk result (IsRunnerOf classes.entry.now.family batch_size endpoint) }
            { open_runner(alloc, classes, endpoint, nodes, batch_size, pace) },
        )
        .collect::<Result<Vec<Runner>, Memory>>(rt, alloc)?
}

// The runner of an endpoint of `nodes`, with a node that is opened for its seat, which keeps the pace of its crew.
fn open_runner(
    alloc: Global,
    classes: &Classes,
    endpoint: Endpoint,
    nodes: NodeCount,
    batch_size: BatchSize,
    pace: &Pace,
) -> Result<Runner, Memory>
    requires new { (capacity : ℕ) × IsNewEndpoint capacity endpoint }
    requires nodes { endpoint.seat.nodes ≡ nodes }
    ensures { IfOk result (IsRunnerOf classes.now.family batch_size endpoint) }
{
    let pace = pace.of(alloc, endpoint.seat.node, nodes)?;
    let node = Node::open_own(alloc, classes, endpoint.seat.node, nodes)?;
    let mut runner = Runner::new(node, endpoint, classes.family, batch_size);
    runner.keep_pace(pace);
    Ok(runner)
}

// A board of `nodes` nodes and the endpoint of each of them, in order, with inboxes that hold at most `capacity` batches.
// Nothing is posted or sent yet.
fn open_endpoints(
    alloc: Global,
    nodes: NodeCount,
    capacity: Capacity,
) -> Result<(Blackboard, Vec<Endpoint>), Memory>
    ensures nodes { IfOk result (λ opened. opened.0.nodes ≡ nodes) }
    ensures crew { IfOk result (λ opened. IsCrew opened.0 opened.1.items) }
    ensures new { IfOk result (λ opened. AreNewEndpoints capacity opened.1.items) }
{
    let (board, seats) = Blackboard::open_for(alloc, nodes)?;
    let (rows, inlets) = open_inboxes(alloc, nodes, capacity)?;
    let endpoints = seat_all(alloc, seats, rows, inlets)?;
    Ok((board, endpoints))
}

// The endpoint of each seat, with its row of outlets and its inlet.
fn seat_all(
    alloc: Global,
    seats: Vec<NodeSeat>,
    rows: Vec<Vec<Outlet>>,
    inlets: Vec<Inlet>,
) -> Result<Vec<Endpoint>, Memory>
    requires { CanSeatAll seats.items rows.items inlets.items }
    ensures { IfOk result (λ endpoints. AreSeated (vec_len seats) seats.items rows.items inlets.items endpoints.items) }
{
    let mut endpoints = Vec::new(alloc);
    for ((seat, outlets), inlet) in seats.into_iter().zip(rows).zip(inlets) {
        endpoints.push(Endpoint::new(seat, outlets, inlet))?;
    }
    Ok(endpoints)
}
