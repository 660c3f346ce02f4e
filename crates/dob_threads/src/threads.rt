// A thread for each runner, from its start to its end.
ghost use Rattle.std.specs.Prelude.{◌≡◌, [], None, IfOk};
ghost use Rattle.std.specs.List.{AllZip};
ghost use Rattle.dob_runner.specs.TurnLoop.{Suits, EndsBy};
ghost use Rattle.dob_threads.specs.Started.{AllSuit, HasTaken, GivesUp, IsStartOf, IsEndOf, IsJoinable, AreJoinable};
ghost use Rattle.rtrb.specs.Ring.{received};

use crate::handed::{Handed, next_handed};
use dob_classes::Classes;
use dob_node::Cause;
use dob_pieces::Memory;
use dob_runner::{Gate, Runner, Until};
use rtrb::{Consumer, Producer, RingBuffer};
use std::alloc::Global;
use std::snapshot::Snapshot;
use std::sync::Wait;
use std::thread;
use std::thread::{Promise, PromisedHandle, Scope, Threads};

// What a thread leaves: its end of the ring by which its runner came, and that runner after its turns.
#[derive(Drop)]
pub(crate) struct Ran<'s> {
    taking: Consumer<Handed<'s>>,
    runner: Runner,
}

// What the thread of a runner promises.
#[derive(Drop)]
pub(crate) struct Kept<'s, G> {
    taking: Snapshot<Consumer<Handed<'s>>>,
    until: Snapshot<Until>,
    gate: Snapshot<G>,
}

impl<'s, G: Gate> Promise<Ran<'s>> for Kept<'s, G> {
    ghost kept_by = { λ p ran. HasTaken (G.says p.gate.value) p.until.value p.taking.value ran };
}

// A runner whose thread runs, with the other end of its ring, or one that gave up.
#[derive(Drop)]
pub(crate) enum Started<'s, G: Gate> {
    Runs {
        handle: PromisedHandle<Ran<'s>, Kept<'s, G>>,
        giving: Producer<Handed<'s>>,
    },
    GaveUp(Runner),
}

/// Lets each runner make turns for so long, in a thread of its own, and waits for all of them. What became of each, in order.
/// One for which no thread can be made makes no turn and fails for lack of memory; the others make theirs. Its promises hold if
/// it returns.
///
/// # Errors
///
/// `Memory`, which gives the runners up.
pub fn run_each<R: Threads + Wait + Sync, G: Gate + Sync>(
    rt: &R,
    alloc: Global,
    runners: Vec<Runner>,
    classes: &Classes,
    gate: &G,
    until: &Until,
) -> Result<Vec<Runner>, Memory>
    requires { AllSuit classes.now.family runners.items }
    ensures { IfOk result (λ ended. AllZip (EndsBy (G.says gate.now) until.now) runners.items ended.items) }
{
    thread::scope(
        thread::scope_env(),
        rt,
        |scope| -> Result<Vec<Runner>, Memory>
            requires { AllSuit classes.now.family runners.items }
            ensures { IfOk result (λ ended. AllZip (EndsBy (G.says gate.entry.now) until.entry.now) runners.items ended.items) }
        {
            let room = Vec::with_capacity(alloc, runners.len())?;
            let started = start_all(rt, alloc, scope, runners, classes, gate, until)?;
            end_all(rt, started, room)
        },
    )
}

fn start_all<'s, E, R: Threads + Wait + Sync, G: Gate + Sync>(
    rt: &'s R,
    alloc: Global,
    scope: &Scope<'s, E>,
    runners: Vec<Runner>,
    classes: &'s Classes,
    gate: &'s G,
    until: &'s Until,
) -> Result<Vec<Started<'s, G>>, Memory>
    requires { AllSuit classes.now.family runners.items }
    ensures { IfOk result (λ started. AllZip (IsStartOf G.says gate.now until.now) runners.items started.items) }
{
    let mut started = Vec::with_capacity(alloc, runners.len())?;
    for runner in runners {
        started.push(start(rt, alloc, scope, runner, classes, gate, until))?;
    }
    Ok(started)
}

// Starts the thread of a runner and hands the runner to it. Where none can be made the runner is still here, and gives up.
fn start<'s, E, R: Threads + Wait + Sync, G: Gate + Sync>(
    rt: &'s R,
    alloc: Global,
    scope: &Scope<'s, E>,
    runner: Runner,
    classes: &'s Classes,
    gate: &'s G,
    until: &'s Until,
) -> Started<'s, G>
    requires { Suits classes.now.family runner }
    ensures { IsStartOf G.says gate.now until.now runner result }
{
    let Ok((mut giving, taking)) = RingBuffer::new(alloc, 1) else {
        return Started::GaveUp(given_up(runner));
    };
    let promise = Kept {
        taking: Snapshot::of(&taking),
        until: Snapshot::of(until),
        gate: Snapshot::of(gate),
    };
    let run = move || -> Ran
        requires { received taking ≡ [] }
        ensures { HasTaken (G.says gate.entry.now) until.entry.now taking.entry result }
    { take_and_go(rt, taking, gate, until) };
    let Ok(handle) = scope.spawn_with(promise, run) else {
        return Started::GaveUp(given_up(runner));
    };
    giving.push_reserved(Handed { runner, classes });
    Started::Runs { handle, giving }
}

// The runner has made no turn, and fails for lack of memory.
fn given_up(mut runner: Runner) -> Runner
    requires { runner.failed ≡ None }
    ensures { GivesUp runner result }
{
    runner.abandon(Cause::Memory);
    runner
}

// Takes the runner that comes over the ring, and lets it make its turns.
fn take_and_go<'s, R: Wait, G: Gate>(
    rt: &R,
    mut taking: Consumer<Handed<'s>>,
    gate: &G,
    until: &Until,
) -> Ran<'s>
    requires { received taking ≡ [] }
    ensures { HasTaken (G.says gate.now) until.now taking.entry result }
{
    let Handed {
        mut runner,
        classes,
    } = next_handed(rt, &mut taking);
    runner.go_until(rt, classes, gate, until);
    Ran { taking, runner }
}

// Waits for the thread of each runner. The room for them was made before the first began, so that what one failed for is told
// if no memory is left.
fn end_all<'s, R: Threads, G: Gate>(
    rt: &R,
    started: Vec<Started<'s, G>>,
    room: Vec<Runner>,
) -> Result<Vec<Runner>, Memory>
    requires { AreJoinable started.items × (room.items ≡ []) }
    ensures { IfOk result (λ ended. AllZip (IsEndOf G.says) started.entry.items ended.items) }
{
    let mut ended = room;
    for one in started {
        ended.push(end(rt, one))?;
    }
    Ok(ended)
}

// Waits for the thread of a runner.
fn end<'s, R: Threads, G: Gate>(rt: &R, started: Started<'s, G>) -> Runner
    requires { IsJoinable started }
    ensures { IsEndOf G.says started.entry result }
{
    match started {
        Started::Runs { handle, mut giving } => {
            let Ran { mut taking, runner } = handle.join(rt);
            taking.slots_beside(&mut giving);
            runner
        }
        Started::GaveUp(runner) => runner,
    }
}
