// Builds by threads: by any number of nodes, many in a row, and by two nodes that must meet in each of their first turns.
use super::{Meeting, PATIENT, lions};
use crate::sets::is_lions;
use dob_chan::Rejoined;
use dob_run::{AlwaysOpen, Built, Fault, Gate, run_nodes};
use dob_share::Cause;
use dob_turns::run_turns;
use std::alloc::Global;
use std::process::Abort;
use std::sync::Wait;
use std::sync::atomic::{AtomicU64, Ordering};
use std::thread::Threads;

// `n` nodes build lions alone.
fn builds(rt: &(impl Threads + Wait + Abort + Sync), alloc: Global, n: usize, batch: usize) {
    let built = run_nodes(rt, alloc, lions(rt), n, batch, 1, &AlwaysOpen).expect(rt, "a table");
    assert!(rt; is_lions(&built.table));
}

#[test]
fn the_same_table_by_any_number_of_nodes(rt: HostRuntime) {
    builds(&rt, rt.alloc(), 1, 1);
    builds(&rt, rt.alloc(), 2, 1);
    builds(&rt, rt.alloc(), 3, 256);
    builds(&rt, rt.alloc(), 16, 2);
}

// By 2, 3 and 16 nodes, whose runners wait for each other's levels and sleep in between, with batches of one item. A build by 16
// may take a second or two on a busy machine, and a test has 60.
#[test]
fn builds_in_a_row_end(rt: HostRuntime) {
    for _ in 0..20 {
        builds(&rt, rt.alloc(), 2, 1);
        builds(&rt, rt.alloc(), 3, 1);
        builds(&rt, rt.alloc(), 16, 1);
    }
}

// Whether ten batches or more went over the link, and no more than each of the two nodes made turns.
fn has_met(link: &Rejoined, gate: &Meeting) -> bool {
    link.sent() >= 10
        && link.sent() <= gate.first.load(Ordering::SeqCst)
        && link.sent() <= gate.second.load(Ordering::SeqCst)
}

// Whether that is so of both links from one of two nodes to the other.
fn have_met(built: &Built, gate: &Meeting) -> bool {
    built.links.len() == 4 && has_met(&built.links[1], gate) && has_met(&built.links[2], gate)
}

#[test]
fn two_nodes_meet_in_a_build(rt: HostRuntime) {
    let gate = Meeting::new(0, PATIENT);
    let built = run_nodes(&rt, rt.alloc(), lions(&rt), 2, 1, 1, &gate).expect(&rt, "a table");
    assert!(rt; have_met(&built, &gate) && is_lions(&built.table));
}

// A build of two nodes has the table from outside. Where a growth is refused it isn't begun, or a node has stopped for that.
#[test]
fn built_while_growths_are_refused(rt: HostRuntime) {
    match run_nodes(&rt, rt.alloc(), lions(&rt), 2, 2, 1, &AlwaysOpen) {
        Ok(built) => assert!(rt; is_lions(&built.table)),
        Err(Fault::Memory) => {}
        Err(fault) => assert!(rt; is_for_memory(fault)),
    }
}

// Whether a node of two has stopped since a growth was refused.
fn is_for_memory(fault: Fault) -> bool {
    match fault {
        Fault::Stopped { node, cause } => node < 2 && cause == Cause::Memory,
        _ => false,
    }
}

// Adds up what the turns report.
#[derive(Drop)]
struct Tally(AtomicU64);

impl Gate for Tally {
    // It lets each turn begin.
    ghost says = { λ _ _ _. Unit {0} };

    ghost told = { λ _ _ _. Unit {0} };

    fn enter(&self, _node: usize) -> bool {
        true
    }

    fn worked(&self, _node: usize, expanded: u64) {
        self.0.fetch_add(expanded, Ordering::SeqCst);
    }
}

// What is reported of a build adds up to its settlements: one of each of the 50 classes that are no draws, and of some an improved one, of which none is
// known where lions are alone.
fn reports_all(rt: &(impl Threads + Wait + Abort + Sync), alloc: Global, n: usize) {
    let tally = Tally(AtomicU64::new(0));
    let built = run_nodes(rt, alloc, lions(rt), n, 1, 1, &tally).expect(rt, "a table");
    assert!(rt; is_lions(&built.table));
    let told = tally.0.load(Ordering::SeqCst);
    assert!(rt; 50 <= told && told < 100);
}

// What is reported of the turns of `n` nodes adds up to the settlements that the nodes have expanded.
fn turns_report_all(rt: &(impl Threads + Wait + Abort + Sync), alloc: Global, n: usize) {
    let tally = Tally(AtomicU64::new(0));
    let turned = run_turns(rt, alloc, lions(rt), n, 1, 1, 300, &tally).expect(rt, "turns");
    let mut expanded: u64 = 0;
    for worker in &turned.workers {
        expanded = expanded.saturating_add(worker.node.expanded());
    }
    assert!(rt; expanded > 0 && tally.0.load(Ordering::SeqCst) == expanded);
}

#[test]
fn what_is_told_adds_up(rt: HostRuntime) {
    for n in [1, 2, 16] {
        turns_report_all(&rt, rt.alloc(), n);
        reports_all(&rt, rt.alloc(), n);
    }
}
