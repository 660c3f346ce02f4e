// What has gone over the links of a world: each list is a beginning of that before it.
ghost use Rattle.std.specs.Prelude.{◌≡◌, ◌<◌};
ghost use Rattle.dob_world.specs.Standing.{IsStanding};

use dob_classes::Classes;
use dob_share::{Item, Settlement, owner};
use dob_unmove::back;
use dob_value::Value;
use dob_world::World;
use std::alloc::Global;
use std::process::Abort;

/// Wants of each link of the world of `n` nodes that the items applied are the first of those sent, and these the first of what the sender's settlements make.
pub(crate) fn lists_are_beginnings(
    rt: &impl Abort,
    alloc: Global,
    classes: &Classes,
    world: &World,
    n: usize,
)
    requires standing { IsStanding world.now }
    requires n { world.now.node_count ≡ n }
{
    for node in 0..n {
        let told = items_told(rt, alloc, classes, world, node);
        are_sent_in_order(rt, world, n, node, &told);
    }
}

// The items that the settlements of the node make, each by the predecessors of its class, for whichever node.
fn items_told(
    rt: &impl Abort,
    alloc: Global,
    classes: &Classes,
    world: &World,
    node: usize,
) -> Vec<Item>
    requires standing { IsStanding world.now }
    requires node { node < world.now.node_count }
{
    let mut items = Vec::new(alloc);
    let history = world.history(node);
    for number in 0..history.count() {
        let settled = history.get(number);
        assert!(rt; settled.number == number);
        add_items(rt, alloc, classes, settled, &mut items);
    }
    items
}

// Adds those of one settlement.
fn add_items(
    rt: &impl Abort,
    alloc: Global,
    classes: &Classes,
    settled: Settlement,
    items: &mut Vec<Item>,
) {
    assert!(rt; settled.class < classes.class_count());
    let classes_before = back(alloc, classes, settled.class).expect(rt, "memory");
    for to in &classes_before {
        let item = Item {
            number: settled.number,
            to: *to,
            was: settled.was,
            now: settled.now,
        };
        items.push(item).expect(rt, "memory");
    }
}

// Wants the same of the links from that node.
fn are_sent_in_order(rt: &impl Abort, world: &World, n: usize, from: usize, told: &[Item])
    requires standing { IsStanding world.now }
    requires n { world.now.node_count ≡ n }
    requires from { from < n }
{
    for to in 0..n {
        let applied = world.applied(from, to);
        if from == to {
            assert!(rt; begins(applied, told, to, n));
        } else {
            let sent = world.sent(from, to);
            assert!(rt; begins(sent, told, to, n));
            assert!(rt; sent.starts_with(applied));
        }
    }
}

// Whether the items are the first of those told that are for that node among `n`.
fn begins(items: &[Item], told: &[Item], to: usize, n: usize) -> bool
    requires { 0 < n }
{
    let mut found = 0;
    for item in told {
        if found < items.len() && owner(item.to, n) == to {
            if items[found] != *item {
                return false;
            }
            found += 1;
        }
    }
    found == items.len()
}

/// How many settlements of the world of `n` nodes change a value that isn't a draw.
pub(crate) fn improvements(world: &World, n: usize) -> u64
    requires { world.now.node_count ≡ n }
{
    let mut count: u64 = 0;
    for node in 0..n {
        let history = world.history(node);
        for number in 0..history.count() {
            if history.get(number).was != Value::Draw {
                count = count.saturating_add(1);
            }
        }
    }
    count
}
