// Runners that are turned by hand, one after the other, in one thread. What a crew leaves of which a runner has failed is a clause of `finish`.
ghost use Rattle.std.specs.Prelude.{◌≡◌, OnOk, None, ◌∷◌, []};
ghost use Rattle.dob_crew.specs.CrewRunners.{IsNewCrew};
ghost use Rattle.dob_runner.specs.Runners.{KeepsRunner};
ghost use Rattle.dob_runner.specs.declared.runner.Runner.{Runner as AnyRunner};

use super::{HoldsBackOne, Meeting, lions};
use crate::sets::is_lions;
use dob_board::{Blackboard, Halt};
use dob_classes::Classes;
use dob_run::{AlwaysOpen, Built, Fault, Gate, Runner, crew, finish};
use dob_share::Cause;
use std::alloc::Global;
use std::process::Abort;
use std::sync::Wait;
use std::sync::atomic::Ordering;
use std::thread::Threads;

// The classes of lions alone, and a crew of two nodes that own them, with batches of one item and inboxes for one batch.
fn two_runners(
    rt: &(impl Threads + Wait + Abort + Sync),
    alloc: Global,
) -> (Classes, Blackboard, Runner, Runner)
    ensures first { result.0.family ≡ result.2.family }
    ensures second { result.0.family ≡ result.3.family }
    ensures crew { IsNewCrew result.0.family 2 1 1 result.1 (result.2 ∷ result.3 ∷ []) }
{
    let classes = Classes::open(alloc, lions(rt)).expect(rt, "classes");
    let (board, mut runners) = crew(rt, alloc, &classes, 2, 1, 1).expect(rt, "a crew");
    let second = runners.pop().expect(rt, "the second runner");
    let first = runners.pop().expect(rt, "the first runner");
    assert!(rt; runners.is_empty());
    (classes, board, first, second)
}

// Turns a runner that hasn't stopped.
fn turn_once<G: Gate>(
    rt: &(impl Wait + Abort),
    runner: &mut Runner,
    classes: &Classes,
    gate: &G,
) -> Result<Halt, Cause>
    requires { classes.now.family ≡ runner.old.family }
    ensures keeps { KeepsRunner runner.old runner.new }
    ensures family { classes.now.family ≡ runner.new.family }
    ensures going { OnOk result (runner.new.failed ≡ None) }
{
    assert!(rt; !runner.stopped());
    runner.turn(rt, classes, gate)
}

// Turns the two runners one after the other, until the first one's turn announces the end: the answer is what it answered. The other
// one was turned once less.
fn turn_to_the_end(
    rt: &(impl Wait + Abort),
    first: &mut Runner,
    second: &mut Runner,
    classes: &Classes,
) -> Result<Halt, Cause>
    requires first { classes.now.family ≡ first.old.family }
    requires second { classes.now.family ≡ second.old.family }
    ensures first { KeepsRunner first.old first.new }
    ensures second { KeepsRunner second.old second.new }
    ensures family { classes.now.family ≡ second.new.family }
    ensures going { OnOk result (first.new.failed ≡ None) }
{
    for _ in 0..20_000 {
        let halt = turn_once(rt, first, classes, &AlwaysOpen);
        if halt == Ok(Halt::Ended) {
            return halt;
        }
        assert!(rt; halt == Ok(Halt::Running));
        assert!(rt; turn_once(rt, second, classes, &AlwaysOpen) == Ok(Halt::Running));
    }
    Err(Cause::Held)
}

// Closes the crew of the two, which have stopped.
fn close_both(
    rt: &(impl Threads + Wait + Abort + Sync),
    alloc: Global,
    classes: Classes,
    board: Blackboard,
    first: Runner,
    second: Runner,
) -> Result<Built, Fault>
    requires crew { (one : AnyRunner) × (other : AnyRunner) × IsNewCrew classes.family 2 1 1 board (one ∷ other ∷ [])
        × KeepsRunner one first × KeepsRunner other second }
{
    assert!(rt; first.stopped() && second.stopped());
    let runners = vec![in alloc; first, second].ok().expect(rt, "room");
    finish(rt, alloc, classes, board, runners)
}

#[test]
fn turned_by_hand(rt: HostRuntime) {
    let (classes, board, mut first, mut second) = two_runners(&rt, rt.alloc());
    turn_to_the_end(&rt, &mut first, &mut second, &classes).expect(&rt, "an end");
    let last = turn_once(&rt, &mut second, &classes, &AlwaysOpen).expect(&rt, "a turn");
    assert!(rt; last == Halt::Ended);
    let built = close_both(&rt, rt.alloc(), classes, board, first, second);
    let built = built.ok().expect(&rt, "a table");
    assert!(rt; is_lions(&built.table));
    assert!(rt; has_ended(&built.closed.words));
}

// Whether the words say that the end was announced, and that batches of both nodes were posted and taken.
fn has_ended(words: &[u64]) -> bool {
    match words {
        [2, _, 1, _, first, second, _, _, taken, also, _] => {
            *first > 0 && *second > 0 && *taken > 0 && *also > 0
        }
        _ => false,
    }
}

// A runner that fails after the end was announced: that is what the crew answers.
#[test]
fn failed_after_the_end(rt: HostRuntime) {
    let (classes, board, mut first, mut second) = two_runners(&rt, rt.alloc());
    turn_to_the_end(&rt, &mut first, &mut second, &classes).expect(&rt, "an end");
    assert!(rt; turn_once(&rt, &mut second, &classes, &HoldsBackOne) == Err(Cause::Held));
    let built = close_both(&rt, rt.alloc(), classes, board, first, second);
    assert!(rt; built.err() == Some(held(1)));
}

// What a crew answers of which that node was held back.
fn held(node: usize) -> Fault {
    Fault::Stopped {
        node,
        cause: Cause::Held,
    }
}

// In one thread the node that is turned first looks in vain for the other's turn, and is held back, which is what the crew answers.
#[test]
fn one_thread_is_held_back(rt: HostRuntime) {
    let (classes, board, mut first, mut second) = two_runners(&rt, rt.alloc());
    let gate = Meeting::new(0, 100);
    assert!(rt; turn_once(&rt, &mut first, &classes, &gate) == Err(Cause::Held));
    assert!(rt; turn_once(&rt, &mut second, &classes, &AlwaysOpen) == Ok(Halt::Failed(0)));
    let built = close_both(&rt, rt.alloc(), classes, board, first, second);
    assert!(rt; built.err() == Some(held(0)));
}

// One runner turns twice and the other once, by that gate. Then one that says no stops the second runner, and that is what the first one sees.
fn sees_the_hold(
    rt: &(impl Wait + Abort),
    first: &mut Runner,
    second: &mut Runner,
    classes: &Classes,
    gate: &Meeting,
) -> bool
    requires first { classes.now.family ≡ first.old.family }
    requires second { classes.now.family ≡ second.old.family }
{
    turn_once(rt, first, classes, gate) == Ok(Halt::Running)
        && turn_once(rt, second, classes, gate) == Ok(Halt::Running)
        && turn_once(rt, first, classes, gate) == Ok(Halt::Running)
        && turn_once(rt, second, classes, &HoldsBackOne) == Err(Cause::Held)
        && turn_once(rt, first, classes, &AlwaysOpen) == Ok(Halt::Failed(1))
}

// A gate that lets all turns begin, since whoever has made ten looks for nobody, is asked once a turn, and told once of each.
#[test]
fn held_after_three_turns(rt: HostRuntime) {
    let (classes, _board, mut first, mut second) = two_runners(&rt, rt.alloc());
    let gate = Meeting::new(10, 0);
    assert!(rt; sees_the_hold(&rt, &mut first, &mut second, &classes, &gate));
    assert!(rt; gate.first.load(Ordering::SeqCst) == 12);
    assert!(rt; gate.second.load(Ordering::SeqCst) == 11);
    assert!(rt; gate.told.load(Ordering::SeqCst) == 3);
}
