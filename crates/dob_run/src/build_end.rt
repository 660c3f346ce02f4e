// What a build by threads leaves, when its crew has come to its end.
ghost use Rattle.std.specs.Prelude.{◌≡◌, ◌<◌, ◌↔◌, ℕ, IsTrue, IfOk, IfErr, OnOk, MatchOption, Some, length, map, slice_get};
ghost use Rattle.dob_share.specs.declared.cause.Cause.{Cause};
ghost use Rattle.dob_runner.specs.declared.runner.Runner.{Runner};
ghost use Rattle.dob_crew.specs.CrewRunners.{endpoint_of, node_of};
ghost use Rattle.dob_board.specs.Seats.{AreWords};
ghost use Rattle.dob_crew.specs.CrewClose.{IsCrew, AreClosed, seat_in};
ghost use Rattle.dob_run.specs.Built.{IsBuilt};
ghost use Rattle.dob_run.specs.CrewStops.{AreUnfailed, IsFirstFailed};
ghost use Rattle.dob_run.specs.BuildEnd.{HaveStopped, AllKnow, IsFailure, IsFailureOf, AreFailureless, share_in};

use crate::built_table::Built;
use dob_board::{Blackboard, Halt};
use dob_classes::Classes;
use dob_crew::{ClosedCrew, close_runners};
use dob_gather::{Gathered, gather};
use dob_node::{Cause, Node};
use dob_pieces::Memory;
use dob_runner::Runner;
use dob_share::{BuildFault, Share};
use std::alloc::{AllocError, Global};
use std::sync::Wait;
use std::thread::Threads;

/// Closes a whole crew whose runners have all stopped: if the end was announced, the table of the values that its
/// nodes show, which is the value table, with the words of the board and what went over the links. Its promises hold if it
/// returns.
///
/// # Errors
///
/// `Stopped` if the run failed, with the node that failed it and that node's cause, and where a runner failed only
/// after the end was announced, with the least such node and its cause; `Memory` only if none has failed, which gives the crew up.
pub fn finish<R: Threads + Wait + Sync>(
    rt: &R,
    alloc: Global,
    classes: Classes,
    board: Blackboard,
    runners: Vec<Runner>,
) -> Result<Built, BuildFault>
    requires crew { IsCrew board (map endpoint_of runners.items) }
    requires stopped { (size : ℕ) × HaveStopped classes.family size runners.items }
    ensures built { IfOk result (λ built. (size : ℕ) → HaveStopped classes.family size runners.items →
        IsBuilt classes.family board.nodes size built) }
    ensures words { IfOk result (λ built. AreWords board.nodes (map seat_in (map endpoint_of runners.items)) built.closed.words.items) }
    ensures unfailed { OnOk result (AreUnfailed runners.items) }
    ensures failed { IfErr result (IsFailureOf runners.items) }
{
    if let Some(fault) = failure_known(&runners) {
        return Err(fault);
    }
    let (shares, ended) = close_all(rt, alloc, board, runners)?;
    let Gathered { table, digest, .. } = gather(rt, alloc, classes, &shares)?;
    let ClosedCrew { closed, links, .. } = ended;
    Ok(Built {
        table,
        digest,
        closed,
        links,
    })
}

// The failure that each of these runners knows of: the node that failed the run, or the least one that failed although its end was announced. It takes no
// memory, so that a failure is named where none is left.
fn failure_known(runners: &[Runner]) -> Option<BuildFault>
    ensures { MatchOption result
        (AreFailureless runners.now × (AllKnow Halt.Ended runners.now → AreUnfailed runners.now))
        (IsFailureOf runners.now) }
{
    let Some(first) = runners.first() else {
        return None;
    };
    let halt = first.endpoint.seat.stand.halt;
    if !all_know(runners, halt) {
        return None;
    }
    match halt {
        Halt::Running => None,
        Halt::Ended => match find_failed(runners) {
            Ok(()) => None,
            Err(fault) => Some(fault),
        },
        Halt::Failed(node) => failure_of(runners, node),
    }
}

fn all_know(runners: &[Runner], halt: Halt) -> bool
    ensures { IsTrue result ↔ AllKnow halt runners.now }
{
    for runner in runners {
        if runner.endpoint.seat.stand.halt != halt {
            return false;
        }
    }
    true
}

// Why the runner of the node that failed the run has failed.
fn failure_of(runners: &[Runner], node: usize) -> Option<BuildFault>
    requires { AllKnow (Halt.Failed node) runners.now }
    ensures { MatchOption result ((why : Cause) → ¬ IsFailure runners.now node why) (IsFailureOf runners.now) }
{
    if node >= runners.len() {
        return None;
    }
    let Some(cause) = failure_at(runners, node) else {
        return None;
    };
    Some(BuildFault::Stopped { node, cause })
}

/// Refuses runners of which one has failed.
///
/// # Errors
///
/// `Stopped` with the least node that has failed and its cause, and no other fault.
pub fn find_failed(runners: &[Runner]) -> Result<(), BuildFault>
    ensures going { OnOk result (AreUnfailed runners.now) }
    ensures first { IfErr result (IsFirstFailed runners.now) }
{
    for node in 0..runners.len() {
        if let Some(cause) = failure_at(runners, node) {
            return Err(BuildFault::Stopped { node, cause });
        }
    }
    Ok(())
}

// Why the runner at that place has failed, if it has.
fn failure_at(runners: &[Runner], place: usize) -> Option<Cause>
    requires { place < length runners.now }
    ensures { (runner : Runner) → slice_get runners.now place ≡ Some runner → result ≡ runner.failed }
{
    runners[place].failure()
}

// Closes the crew of these runners: the shares of their nodes, and what their endpoints leave.
fn close_all<R: Wait>(
    rt: &R,
    alloc: Global,
    board: Blackboard,
    runners: Vec<Runner>,
) -> Result<(Vec<Share>, ClosedCrew), Memory>
    requires { IsCrew board (map endpoint_of runners.items) }
    ensures shares { IfOk result (λ closed. closed.0.items ≡ map share_in (map node_of runners.items)) }
    ensures ended { IfOk result (λ closed. AreClosed board.nodes (map endpoint_of runners.items) closed.1) }
{
    let (nodes, ended) = close_runners(rt, alloc, board, runners)?;
    let shares = shares_of(alloc, nodes)?;
    Ok((shares, ended))
}

// The share of each node. All else that the nodes have is given back.
fn shares_of(alloc: Global, nodes: Vec<Node>) -> Result<Vec<Share>, AllocError>
    ensures { IfOk result (λ shares. shares.items ≡ map share_in nodes.items) }
{
    nodes
        .into_iter()
        .map(|node| node.into_share())
        .collect(alloc)
}
