// Runs by threads: crews that make a number of turns, builds, and runners that are turned by hand. That what a build leaves is the value table, with each
// batch posted, taken, sent and received, is a clause of `dob_run`; the numbers of its values are asked in `dob_answers`, its file in tests/builds.sh.
ghost use Rattle.std.specs.Prelude.{◌≤◌};

mod builds;
mod openings;
mod turns;

use dob_pieces::{Family, PieceSet, Profile};
use dob_run::{Fault, Gate, run_nodes};
use dob_share::Cause;
use dob_turns::{Turned, run_turns};
use dob_update::Batch;
use std::process::Abort;
use std::sync::atomic::{AtomicU64, Ordering};
use std::thread;

// The family of the two lions alone.
fn lions(rt: &impl Abort) -> Family {
    Family {
        set: PieceSet::read("000").expect(rt, "a set"),
        profile: Profile::A,
    }
}

// Each of two nodes notes its turn, and in the first ten looks for the other's, so often at most. What the turns report is counted.
#[derive(Drop)]
struct Meeting {
    first: AtomicU64,
    second: AtomicU64,
    told: AtomicU64,
    looks: u32,
}

// So many that the other's thread must come to its turn.
const PATIENT: u32 = 1_000_000;

impl Meeting {
    // Each node has noted so many turns.
    fn new(turns: u64, looks: u32) -> Meeting {
        Meeting {
            first: AtomicU64::new(turns),
            second: AtomicU64::new(turns),
            told: AtomicU64::new(0),
            looks,
        }
    }
}

impl Gate for Meeting {
    // It may answer both.
    ghost says = { λ _ _ _. Unit {0} };

    ghost told = { λ _ _ _. Unit {0} };

    fn enter(&self, node: usize) -> bool {
        let (mine, other) = if node == 0 {
            (&self.first, &self.second)
        } else {
            (&self.second, &self.first)
        };
        let turn = mine.fetch_add(1, Ordering::SeqCst);
        if turn >= 10 {
            return true;
        }
        for _ in 0..self.looks {
            if other.load(Ordering::SeqCst) > turn {
                return true;
            }
            thread::yield_now();
        }
        false
    }

    fn worked(&self, _node: usize, _expanded: u64) {
        self.told.fetch_add(1, Ordering::SeqCst);
    }
}

#[test]
fn two_nodes_meet(rt: HostRuntime) {
    let gate = Meeting::new(0, PATIENT);
    let turned = run_turns(&rt, rt.alloc(), lions(&rt), 2, 1, 1, 1, &gate);
    assert!(rt; turned.is_ok());
    assert!(rt; gate.first.load(Ordering::SeqCst) == 1);
    assert!(rt; gate.second.load(Ordering::SeqCst) == 1);
}

// Where one thread turns both nodes, whichever first, that one looks for the other's turn in vain and is held back (`one_thread_is_held_back`).
#[test]
fn one_thread_cannot_meet_itself(rt: HostRuntime) {
    assert!(rt; !Meeting::new(0, 100).enter(0));
    assert!(rt; !Meeting::new(0, 100).enter(1));
}

// Holds back node 1, and no other.
#[derive(Drop)]
struct HoldsBackOne;

impl Gate for HoldsBackOne {
    // It may answer both.
    ghost says = { λ _ _ _. Unit {0} };

    ghost told = { λ _ _ _. Unit {0} };

    fn enter(&self, node: usize) -> bool {
        node != 1
    }

    fn worked(&self, _node: usize, _expanded: u64) {}
}

// What a run with that gate answers.
const HELD: Fault = Fault::Stopped {
    node: 1,
    cause: Cause::Held,
};

#[test]
fn a_node_that_is_held_back(rt: HostRuntime) {
    let turned = run_turns(&rt, rt.alloc(), lions(&rt), 3, 1, 1, 5, &HoldsBackOne);
    assert!(rt; turned.err() == Some(HELD));
    let built = run_nodes(&rt, rt.alloc(), lions(&rt), 3, 1, 1, &HoldsBackOne);
    assert!(rt; built.err() == Some(HELD));
}

// The words of the board are those of its start: the number of nodes, the first token, no halt, and no batch posted or taken. So nothing is in a slot or went
// over a link, by what `run_turns` says of its counts.
#[test]
fn no_turns_leave_nothing(rt: HostRuntime) {
    let turned = run_turns(&rt, rt.alloc(), lions(&rt), 2, 1, 1, 0, &HoldsBackOne);
    let turned = turned.expect(&rt, "no turn");
    let start = [2, 1_407_374_883_553_280, 0, 0, 0, 0, 0, 0, 0, 0, 0];
    assert!(rt; turned.closed.words.as_slice() == start.as_slice());
    for nodes in [1, 2, 16] {
        let turned = run_turns(&rt, rt.alloc(), lions(&rt), nodes, 1, 1, 0, &HoldsBackOne);
        assert!(rt;
            has_nothing(&turned.expect(&rt, "no turn"), nodes),
            "{nodes}"
        );
    }
}

// Whether no batch went over the links of so many nodes, and none is left in a link or a hand.
fn has_nothing(turned: &Turned, nodes: usize) -> bool
    requires { nodes ≤ 16 }
{
    for link in &turned.links {
        if link.sent() > 0 || link.received() > 0 || !link.waiting().is_empty() {
            return false;
        }
    }
    for worker in &turned.workers {
        if !are_empty(&worker.sending) || !are_empty(&worker.taking) {
            return false;
        }
    }
    turned.links.len() == nodes * nodes && turned.workers.len() == nodes
}

// Whether there is no batch in these hands.
fn are_empty(hands: &[Option<Batch>]) -> bool {
    for hand in hands {
        if hand.is_some() {
            return false;
        }
    }
    true
}
