// A crew whose runners make a number of turns each, and what they leave.
ghost use Rattle.std.specs.Prelude.{◌≡◌, IfOk, IfErr, OnOk, map, length};
ghost use Rattle.dob_crew.specs.CrewClose.{IsCrew, row_of};
ghost use Rattle.dob_crew.specs.CrewRunners.{endpoint_of};
ghost use Rattle.dob_run.specs.CrewStops.{IsFirstFailed, StopsSo};
ghost use Rattle.dob_crew.specs.Faults.{AreWithin};
ghost use Rattle.dob_run.specs.Faults.{HasBuildFault};
ghost use Rattle.dob_runner.specs.Runners.{says_no};
ghost use Rattle.dob_runner.specs.TurnLoop.{until_turns};
ghost use Rattle.dob_turns.specs.BoundedRun.{IsTurned, CarriesFew, AreWorkers, HasLeft};

use dob_board::{Blackboard, Closed};
use dob_chan::Rejoined;
use dob_node::Node;
use dob_pieces::{Family, Memory};
use dob_run::{ClosedCrew, CrewSizes, EndedCrew, Fault, close_runners, find_failed, run_crew};
use dob_runner::{Gate, Runner, Until};
use dob_update::Batch;
use std::alloc::Global;
use std::sync::Wait;
use std::thread::Threads;

/// What a node's worker leaves: the node, and what lies in its slots, one place a node.
#[derive(Drop)]
pub struct Worker {
    pub node: Node,
    pub sending: Vec<Option<Batch>>,
    pub taking: Vec<Option<Batch>>,
}

/// What a crew leaves: the worker of each node, the words of the board, and what went over each link, by sender and then by
/// receiver.
#[derive(Drop)]
pub struct Turned {
    pub workers: Vec<Worker>,
    pub closed: Closed,
    pub links: Vec<Rejoined>,
}

/// Lets each of `nodes` nodes of the family make `turns` turns, in a thread of its own, with batches of at most `batch_size`
/// items and inboxes that hold at most `capacity` batches, and without the halt word and the token: each asks the gate at the
/// start of each turn. At most one batch a turn goes over each link. One that fails ends, and the others make their turns. Its
/// promises hold if it returns.
///
/// # Errors
///
/// Those of `dob_run::run_nodes`, but `Stopped` with the least node that failed and its cause.
pub fn run_turns<R: Threads + Wait + Sync, G: Gate + Sync>(
    rt: &R,
    alloc: Global,
    family: Family,
    nodes: usize,
    batch_size: usize,
    capacity: usize,
    turns: u64,
    gate: &G,
) -> Result<Turned, Fault>
    ensures turned { IfOk result (IsTurned family nodes batch_size) }
    ensures few { IfOk result (CarriesFew nodes turns) }
    ensures within { OnOk result (AreWithin nodes batch_size capacity) }
    ensures fault { IfErr result (HasBuildFault nodes batch_size capacity) }
    ensures stopped { IfErr result (StopsSo IsFirstFailed (says_no (G.says gate.now)) (until_turns turns) family nodes batch_size capacity) }
{
    let sizes = CrewSizes::new(nodes, batch_size, capacity)?;
    let EndedCrew { board, runners, .. } = run_crew(
        rt,
        alloc,
        family,
        &sizes,
        gate,
        &Until::Turns(turns),
    )?;
    find_failed(&runners)?;
    let turned = close_crew(rt, alloc, board, runners)?;
    Ok(turned)
}

fn close_crew<R: Wait>(
    rt: &R,
    alloc: Global,
    board: Blackboard,
    runners: Vec<Runner>,
) -> Result<Turned, Memory>
    requires { IsCrew board (map endpoint_of runners.items) }
    ensures { IfOk result (HasLeft board.nodes runners.items) }
{
    let (nodes, ended) = close_runners(rt, alloc, board, runners)?;
    let ClosedCrew {
        closed,
        links,
        sending,
        taking,
    } = ended;
    let workers = workers_of(alloc, nodes, sending, taking)?;
    Ok(Turned {
        workers,
        closed,
        links,
    })
}

// Each node with its slots.
fn workers_of(
    alloc: Global,
    nodes: Vec<Node>,
    sending: Vec<Vec<Option<Batch>>>,
    taking: Vec<Vec<Option<Batch>>>,
) -> Result<Vec<Worker>, Memory>
    requires sending { length sending.items ≡ length nodes.items }
    requires taking { length taking.items ≡ length nodes.items }
    ensures { IfOk result (λ workers. AreWorkers (length nodes.items) nodes.items (map row_of sending.items) (map row_of taking.items) workers.items) }
{
    let mut workers = Vec::with_capacity(alloc, nodes.len())?;
    for ((node, sending), taking) in nodes.into_iter().zip(sending).zip(taking) {
        workers.push(Worker {
            node,
            sending,
            taking,
        })?;
    }
    Ok(workers)
}
