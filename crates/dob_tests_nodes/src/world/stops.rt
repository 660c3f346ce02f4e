// A world that stops, and what it has left. `tests/growths.sh` runs the test with each growth refused in turn, as
// `rt try --test --fail-alloc N -- as_before` does with the one of that number; with none refused each world comes to its end.
ghost use Rattle.std.specs.Prelude.{◌≡◌, ◌<◌};
ghost use Rattle.dob_world.specs.Standing.{StandsOrStopped};

use super::driven;
use crate::sets::{family_of, is_lions};
use dob_share::Cause;
use dob_world::{Event, Fault, History, World};
use std::process::Abort;

// What happens by turns in a world of two nodes.
const EVENTS: [Event; 11] = [
    Event::Expand(0),
    Event::Own(0),
    Event::Expand(1),
    Event::Own(1),
    Event::Post { from: 0, to: 1 },
    Event::Post { from: 1, to: 0 },
    Event::Take { from: 0, to: 1 },
    Event::Take { from: 1, to: 0 },
    Event::Pass(1),
    Event::Pass(0),
    Event::Announce,
];

// The two worlds of two nodes have done as many events, and lend the same lists.
fn are_alike(rt: &impl Abort, one: &World, other: &World)
    requires one { one.now.node_count ≡ 2 }
    requires other { other.now.node_count ≡ 2 }
{
    assert!(rt; one.steps() == other.steps());
    assert!(rt; one.announced() == other.announced());
    for node in 0..2 {
        have_same_links(rt, one, other, node);
        have_same_histories(rt, &one.history(node), &other.history(node));
    }
}

fn have_same_links(rt: &impl Abort, one: &World, other: &World, from: usize)
    requires one { one.now.node_count ≡ 2 }
    requires other { other.now.node_count ≡ 2 }
    requires from { from < 2 }
{
    for to in 0..2 {
        assert!(rt; one.sent(from, to) == other.sent(from, to), "{from} {to}");
        assert!(rt;
            one.applied(from, to) == other.applied(from, to),
            "{from} {to}"
        );
    }
}

fn have_same_histories(rt: &impl Abort, one: &History<'_>, other: &History<'_>) {
    let count = one.count();
    assert!(rt; other.count() == count);
    for number in 0..count {
        assert!(rt; one.get(number) == other.get(number), "{number}");
    }
}

// Makes the event in both worlds, in the second one a moment later. Whether neither stops; if the first one does it is as the second,
// and stays so.
fn make_both(rt: &impl Abort, one: &mut World, other: &mut World, event: Event) -> bool
    requires kept { StandsOrStopped one.old × StandsOrStopped other.old }
    requires n { (one.old.node_count ≡ 2) × (other.old.node_count ≡ 2) }
    ensures kept { StandsOrStopped one.new × StandsOrStopped other.new }
    ensures n { (one.new.node_count ≡ 2) × (other.new.node_count ≡ 2) }
{
    assert!(rt; one.steps() < 1 << 40 && other.steps() < 1 << 40);
    if let Err(fault) = one.step(event) {
        assert!(rt; !one.announced());
        are_alike(rt, one, other);
        answers_the_same(rt, one, fault);
        are_alike(rt, one, other);
        return false;
    }
    other.step(event).is_ok()
}

// The world that has stopped answers the same at each event.
fn answers_the_same(rt: &impl Abort, world: &mut World, fault: Fault)
    requires kept { StandsOrStopped world.old }
    requires n { world.old.node_count ≡ 2 }
    ensures kept { StandsOrStopped world.new }
    ensures n { world.new.node_count ≡ 2 }
{
    for event in &EVENTS {
        let steps = world.steps();
        assert!(rt; steps < 1 << 40);
        assert!(rt; world.step(*event) == Err(fault), "after {steps} events");
    }
}

// At each growth that is refused: the same lists as those of a world to which the same has happened, except that event.
#[test]
fn a_stopped_world_is_as_before(rt: HostRuntime) {
    let Ok(mut world) = World::open(rt.alloc(), family_of(&rt, "000"), 2, 2, 1) else {
        return;
    };
    let Ok(mut twin) = World::open(rt.alloc(), family_of(&rt, "000"), 2, 2, 1) else {
        return;
    };
    for number in 0..11_000 {
        if !make_both(&rt, &mut world, &mut twin, EVENTS[number % 11]) {
            return;
        }
    }
    assert!(rt; world.announced());
    are_alike(&rt, &world, &twin);
}

// A world that is driven to its end has the table from outside. Where a growth is refused there is no world, or a node has stopped for that, or there is no
// table.
#[test]
fn driven_while_growths_are_refused(rt: HostRuntime) {
    let mut world = match World::open(rt.alloc(), family_of(&rt, "000"), 2, 2, 1) {
        Ok(world) => world,
        Err(fault) => {
            assert!(rt; fault == Fault::Memory);
            return;
        }
    };
    match driven(&rt, &mut world, 2) {
        Ok(still) => assert!(rt; still),
        Err(fault) => {
            assert!(rt; is_for_memory(fault));
            return;
        }
    }
    if let Ok(table) = world.gather() {
        assert!(rt; is_lions(&table));
    }
}

// Whether a node of two has stopped since a growth was refused.
fn is_for_memory(fault: Fault) -> bool {
    match fault {
        Fault::Stopped { node, cause } => node < 2 && cause == Cause::Memory,
        _ => false,
    }
}
