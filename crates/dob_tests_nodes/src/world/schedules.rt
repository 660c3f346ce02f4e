// Worlds under events drawn at random: what was sent and applied on the way, and the tables that they end with.
ghost use Rattle.std.specs.Prelude.{◌≡◌, ◌<◌, None};
ghost use Rattle.dob_world.specs.Standing.{IsStanding, StandsOrStopped};

use super::beginnings::{improvements, lists_are_beginnings};
use super::{finish, world_of};
use crate::sets::{classes_of, is_same_table};
use dob_pieces::Family;
use dob_value::{Table, sweep_table};
use dob_world::{Event, World};
use std::alloc::Global;
use std::process::Abort;

// Numbers that look random and are the same in each run: SplitMix64 (Steele, Lea and Flood 2014).
#[derive(Drop)]
struct Dice(u64);

impl Dice {
    // A number below that one.
    fn roll(&mut self, sides: u64) -> u64
        requires { 0 < sides }
        ensures { result < sides }
    {
        self.0 = self.0.wrapping_add(0x9e37_79b9_7f4a_7c15);
        let mut mixed = self.0;
        mixed = (mixed ^ (mixed >> 30)).wrapping_mul(0xbf58_476d_1ce4_e5b9);
        mixed = (mixed ^ (mixed >> 27)).wrapping_mul(0x94d0_49bb_1331_11eb);
        (mixed ^ (mixed >> 31)) % sides
    }

    // The number of a node among `n`, or now and then the one above.
    fn node(&mut self, n: usize) -> usize {
        let sides = (n as u64).saturating_add(1);
        self.roll(sides) as usize
    }

    fn event(&mut self, n: usize) -> Event {
        let from = self.node(n);
        let to = self.node(n);
        match self.roll(4) {
            0 => Event::Expand(from),
            1 => Event::Own(from),
            2 => Event::Post { from, to },
            _ => Event::Take { from, to },
        }
    }
}

// A world of the family with `n` nodes, before its first event.
fn open(rt: &impl Abort, alloc: Global, family: Family, n: usize, dice: &mut Dice) -> World
    ensures standing { IsStanding result }
    ensures kept { StandsOrStopped result }
    ensures going { result.failed ≡ None }
    ensures n { result.node_count ≡ n }
{
    let batch = match dice.roll(3) {
        0 => 1,
        1 => 3,
        _ => 4096,
    };
    let capacity = match dice.roll(2) {
        0 => 1,
        _ => 4,
    };
    world_of(rt, alloc, family, n, batch, capacity)
}

// Makes the event, whether it is done or skipped.
fn make(rt: &impl Abort, world: &mut World, event: Event)
    requires { StandsOrStopped world.old }
    ensures standing { IsStanding world.new }
    ensures kept { StandsOrStopped world.new }
    ensures going { world.new.failed ≡ None }
    ensures n { world.new.node_count ≡ world.old.node_count }
{
    assert!(rt; world.steps() < 1 << 40);
    match world.step(event) {
        Ok(_) => {}
        Err(_) => panic!(rt; "a node has stopped"),
    }
}

// Makes `events` events in the world of `n` nodes.
fn happen(rt: &impl Abort, world: &mut World, n: usize, dice: &mut Dice, events: u64)
    requires standing { IsStanding world.old }
    requires kept { StandsOrStopped world.old }
    requires going { world.old.failed ≡ None }
    requires n { world.old.node_count ≡ n }
    ensures standing { IsStanding world.new }
    ensures going { world.new.failed ≡ None }
    ensures n { world.new.node_count ≡ n }
{
    for _event in 0..events {
        let event = dice.event(n);
        make(rt, world, event);
    }
}

// Worlds of the set of that name under `schedules` schedules of at most `events` events, each driven to its end, come to the table of a sweep. How many of their
// settlements improve a value.
fn try_schedules(rt: &impl Abort, alloc: Global, name: &str, schedules: u64, events: u64) -> u64
    requires { 0 < events }
{
    let classes = classes_of(rt, alloc, name);
    let swept = sweep_table(alloc, classes.family).expect(rt, "a table");
    let mut improved: u64 = 0;
    for schedule in 0..schedules {
        let mut dice = Dice(schedule);
        let some = dice.roll(events);
        improved = improved.saturating_add(try_schedule(rt, alloc, &mut dice, some, &swept));
    }
    improved
}

// So does a world of the table's family, after so many events.
fn try_schedule(
    rt: &impl Abort,
    alloc: Global,
    dice: &mut Dice,
    events: u64,
    swept: &Table,
) -> u64 {
    let n = 1 + dice.roll(16) as usize;
    let mut world = open(rt, alloc, swept.classes().family, n, dice);
    happen(rt, &mut world, n, dice, events);
    lists_are_beginnings(rt, alloc, swept.classes(), &world, n);
    finish(rt, &mut world, n);
    lists_are_beginnings(rt, alloc, swept.classes(), &world, n);
    let table = world.gather().expect(rt, "memory");
    assert!(rt; is_same_table(&table, swept));
    improvements(&world, n)
}

#[test]
fn schedules_of_lions_alone(rt: HostRuntime) {
    assert!(rt; try_schedules(&rt, rt.alloc(), "000", 900, 400) == 0);
}

#[test]
fn schedules_with_a_chick(rt: HostRuntime) {
    assert!(rt; try_schedules(&rt, rt.alloc(), "100", 60, 20_000) > 0);
}

#[test]
fn schedules_with_a_giraffe(rt: HostRuntime) {
    assert!(rt; try_schedules(&rt, rt.alloc(), "001", 60, 10_000) > 0);
}
