// Nodes over lions alone, by values known from outside; and lists in short segments, with which the same calls leave a node the values that it has with
// long ones.
ghost use Rattle.std.specs.Prelude.{◌≡◌, ◌<◌, None};
ghost use Rattle.dob_node.specs.Nodes.{IsSound};

use crate::outboxes::{add, cut, won};
use crate::sets::classes_of;
use dob_classes::Classes;
use dob_history::opening;
use dob_lists::SegmentLength;
use dob_node::{Node, Part};
use dob_safra::NodeCount;
use dob_share::{Fault, Item};
use dob_update::Outbox;
use dob_value::Value;
use std::alloc::Global;
use std::process::Abort;

// One of two nodes, at its opening, with lists in segments of the greatest length.
fn one_of_two<A: Abort>(rt: &A, alloc: Global, classes: &Classes, id: usize) -> Node
    requires { id < 2 }
    ensures sound { IsSound result }
    ensures going { result.failed ≡ None }
    ensures family { result.family ≡ classes.now.family }
    ensures n { result.n ≡ 2 }
{
    let openings = opening(alloc, classes, SegmentLength::longest()).expect(rt, "openings");
    let two = NodeCount::new(2).expect(rt, "two nodes");
    Node::open(alloc, &openings, classes.family, id, two).expect(rt, "a node")
}

// Hands the next batch of at most `size` items to the node: how many settlements it has then.
fn hands_over<A: Abort>(rt: &A, outbox: &mut Outbox, node: &mut Node, size: usize) -> u64
    requires sound { IsSound node.old }
    requires going { node.old.failed ≡ None }
    requires family { outbox.old.sends.family ≡ node.old.family }
    requires n { (outbox.old.sends.n ≡ 2) × (node.old.n ≡ 2) }
    ensures sound { IsSound node.new }
    ensures going { node.new.failed ≡ None }
    ensures family { (outbox.new.sends.family ≡ outbox.old.sends.family) × (node.new.family ≡ node.old.family) }
    ensures n { (outbox.new.sends.n ≡ 2) × (node.new.n ≡ 2) }
{
    let batch = cut(rt, outbox, size);
    node.apply_batch(&batch).expect(rt, "items that fit");
    node.settled()
}

// Class 17 of lions alone has five moves: two into class 16, two into 14, one into 15. After the first batch three are left, after the last
// none, and the class is lost.
#[test]
fn a_batch_leaves_three_of_five_moves(rt: HostRuntime) {
    let alloc = rt.alloc();
    let classes = classes_of(&rt, alloc, "000");
    let mut node = one_of_two(&rt, alloc, &classes, 1);
    let mut outbox = Outbox::new(alloc, classes.family, 2, 0, 1);
    add(&rt, alloc, &classes, &mut outbox, won(0, 16));
    add(&rt, alloc, &classes, &mut outbox, won(1, 14));
    add(&rt, alloc, &classes, &mut outbox, won(2, 15));
    assert!(rt; hands_over(&rt, &mut outbox, &mut node, 2) == 17);
    assert!(rt; hands_over(&rt, &mut outbox, &mut node, 3) == 17);
    assert!(rt; hands_over(&rt, &mut outbox, &mut node, 5) == 17);
    assert!(rt; hands_over(&rt, &mut outbox, &mut node, 3) == 18);
    assert!(rt; node.settled() == 18);
    let last = node.settlement(17);
    assert!(rt; last.class == 17 && last.now == Value::Loss(8));
}

// A first value of what one move of class 46 leads to: a win of the enemy in one ply.
const NEWS: Item = Item {
    number: 0,
    to: 46,
    was: Value::Draw,
    now: Value::Win(1),
};

// Of the five moves of class 46 four are left after the first own item of the first of two nodes: four more items are taken, one more isn't.
#[test]
fn an_own_item_leaves_four_of_five_moves(rt: HostRuntime) {
    let classes = classes_of(&rt, rt.alloc(), "000");
    let mut node = one_of_two(&rt, rt.alloc(), &classes, 0);
    assert!(rt; node.expand(&classes).expect(&rt, "room"));
    assert!(rt; node.apply_own().expect(&rt, "an item that fits"));
    let mut share = node.into_share();
    for left in [3, 2, 1] {
        assert!(rt; share.settled() < 1000);
        let settled = share.apply(NEWS).expect(&rt, "an item that fits");
        assert!(rt; settled.is_none(), "{left}");
    }
    assert!(rt; share.settled() < 1000);
    let last = share
        .apply(NEWS)
        .expect(&rt, "the last item")
        .expect(&rt, "a settlement");
    assert!(rt; last.class == 46 && last.now == Value::Loss(2));
    assert!(rt; share.settled() < 1000);
    assert!(rt; share.apply(NEWS).err() == Some(Fault::Contradiction(46)));
}

// A step of a node: an own item, or an expansion. False if it has neither.
fn step(rt: &impl Abort, classes: &Classes, node: &mut Node) -> bool
    requires family { classes.now.family ≡ node.old.family }
    requires sound { IsSound node.old }
    requires going { node.old.failed ≡ None }
    ensures family { classes.now.family ≡ node.new.family }
    ensures sound { IsSound node.new }
    ensures going { node.new.failed ≡ None }
{
    if node.apply_own().expect(rt, "an item that fits") {
        return true;
    }
    node.expand(classes).expect(rt, "room")
}

// The values that the only node finds, with lists in segments of `items` items.
fn part_of(rt: &impl Abort, alloc: Global, classes: &Classes, items: u32) -> Part {
    let length = SegmentLength::of(items).expect(rt, "a length");
    let openings = opening(alloc, classes, length).expect(rt, "openings");
    let one = NodeCount::one();
    let mut node = Node::open(alloc, &openings, classes.family, 0, one).expect(rt, "a node");
    for _step in 0..1_000_000 {
        if !step(rt, classes, &mut node) {
            break;
        }
    }
    node.into_part().expect(rt, "a part")
}

#[test]
fn segments_of_any_length(rt: HostRuntime) {
    let classes = classes_of(&rt, rt.alloc(), "001");
    let whole = part_of(&rt, rt.alloc(), &classes, 1 << 20);
    assert!(rt; whole.values.len() == 1116);
    for items in [1, 7] {
        let part = part_of(&rt, rt.alloc(), &classes, items);
        assert!(rt;
            part.values.as_slice() == whole.values.as_slice(),
            "{items}"
        );
    }
}
