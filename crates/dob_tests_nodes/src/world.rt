// Worlds by values known from outside.
ghost use Rattle.std.specs.Prelude.{◌≡◌, None, OnOk};
ghost use Rattle.dob_world.specs.Standing.{IsStanding, StandsOrStopped};

mod beginnings;
mod schedules;
mod stops;

use crate::sets::{family_of, is_lions, record_of};
use dob_pieces::Family;
use dob_reference::alone;
use dob_world::{Event, Fault, World, run};
use std::alloc::Global;
use std::process::Abort;

// Numbers of nodes; and sizes of batches with capacities of links.
const NODES: [usize; 4] = [1, 2, 3, 16];

const SIZES: [(usize, usize); 4] = [(1, 1), (1, 64), (256, 1), (256, 64)];

// A world of `n` nodes, whose batches hold so many items and whose links so many batches.
fn world_of(
    rt: &impl Abort,
    alloc: Global,
    family: Family,
    n: usize,
    batch: usize,
    capacity: usize,
) -> World
    ensures standing { IsStanding result }
    ensures kept { StandsOrStopped result }
    ensures going { result.failed ≡ None }
    ensures n { result.node_count ≡ n }
{
    let Ok(world) = World::open(alloc, family, n, batch, capacity) else {
        panic!(rt; "no world");
    };
    world
}

// Drives the world of `n` nodes until nothing is left to do, or a node stops.
fn driven(rt: &impl Abort, world: &mut World, n: usize) -> Result<bool, Fault>
    requires standing { IsStanding world.old }
    requires going { world.old.failed ≡ None }
    requires n { world.old.node_count ≡ n }
    ensures standing { OnOk result (IsStanding world.new) }
    ensures going { OnOk result (world.new.failed ≡ None) }
    ensures n { OnOk result (world.new.node_count ≡ n) }
{
    let steps = world.steps();
    let nodes = n as u64;
    assert!(rt; nodes <= 16 && steps <= 1 << 30);
    assert!(rt; steps + 20_000 * (3 * nodes + 2 * (nodes * nodes) + 1) <= 1 << 40);
    world.drive(20_000)
}

// The same where no node stops.
fn finish(rt: &impl Abort, world: &mut World, n: usize)
    requires standing { IsStanding world.old }
    requires going { world.old.failed ≡ None }
    requires n { world.old.node_count ≡ n }
    ensures standing { IsStanding world.new }
    ensures going { world.new.failed ≡ None }
    ensures n { world.new.node_count ≡ n }
{
    let Ok(still) = driven(rt, world, n) else {
        panic!(rt; "a node has stopped");
    };
    assert!(rt; still);
}

// Whether no settlement of the world's `n` nodes has a distance above 54 plies.
fn has_short_values(world: &World, n: usize) -> bool
    requires { world.now.node_count ≡ n }
{
    for node in 0..n {
        let history = world.history(node);
        for number in 0..history.count() {
            if record_of(history.get(number).now) > 55 {
                return false;
            }
        }
    }
    true
}

// A world of lions alone, driven until no event is done, is announced, and has the values from outside; and no event of a further round is done.
fn ends_announced(rt: &impl Abort, alloc: Global, n: usize, batch: usize, capacity: usize) {
    let mut world = world_of(rt, alloc, family_of(rt, "000"), n, batch, capacity);
    finish(rt, &mut world, n);
    let before = world.steps();
    assert!(rt; world.announced());
    assert!(rt; is_lions(&world.gather().expect(rt, "memory")));
    assert!(rt; has_short_values(&world, n));
    finish(rt, &mut world, n);
    assert!(rt; world.steps() == before);
}

#[test]
fn driven_worlds_have_the_table(rt: HostRuntime) {
    for n in &NODES {
        for (batch, capacity) in &SIZES {
            ends_announced(&rt, rt.alloc(), *n, *batch, *capacity);
        }
    }
}

// One node that owns all classes finds that table too.
#[test]
fn one_owner_has_the_table(rt: HostRuntime) {
    let Ok(Some(table)) = alone(rt.alloc(), family_of(&rt, "000"), 100_000) else {
        panic!(&rt; "no table");
    };
    assert!(rt; is_lions(&table));
}

// Why there is no world of lions alone with those sizes; none if there is one, after an event of a node that it hasn't got.
fn refused(
    rt: &impl Abort,
    alloc: Global,
    n: usize,
    batch: usize,
    capacity: usize,
) -> Option<Fault> {
    let family = family_of(rt, "000");
    run(alloc, family, n, batch, capacity, &[Event::Own(16)]).err()
}

#[test]
fn sizes_have_limits(rt: HostRuntime) {
    assert!(rt; refused(&rt, rt.alloc(), 17, 1, 1) == Some(Fault::Nodes));
    assert!(rt; refused(&rt, rt.alloc(), 1, 0, 1) == Some(Fault::Sizes));
    assert!(rt; refused(&rt, rt.alloc(), 1, 1, 1025) == Some(Fault::Sizes));
    assert!(rt; refused(&rt, rt.alloc(), 16, 1, 1).is_none());
}
