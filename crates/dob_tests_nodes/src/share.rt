// How many classes each of several owners has, and what a share answers to items that don't fit.
ghost use Rattle.std.specs.Prelude.{◌<◌};

use crate::sets::classes_of;
use dob_history::opening;
use dob_lists::{SegmentLength, Segments};
use dob_safra::NodeCount;
use dob_share::{Fault, Item, Opening, Share};
use dob_value::Value;
use std::alloc::Global;
use std::process::Abort;

// What is known of the classes of the set of that name before anything is settled.
fn openings_of(rt: &impl Abort, alloc: Global, name: &str) -> Segments<Opening> {
    let classes = classes_of(rt, alloc, name);
    opening(alloc, &classes, SegmentLength::longest()).expect(rt, "openings")
}

// How many places the share of that owner among `nodes` has.
fn places_of(
    rt: &impl Abort,
    alloc: Global,
    openings: &Segments<Opening>,
    id: usize,
    nodes: usize,
) -> u64
    requires { id < nodes }
{
    let nodes = NodeCount::new(nodes).expect(rt, "a number of nodes");
    let share = Share::open(alloc, openings, id, nodes).expect(rt, "a share");
    share.places()
}

#[test]
fn shares_have_their_places(rt: HostRuntime) {
    let lions = openings_of(&rt, rt.alloc(), "000");
    for id in 0..16 {
        let wanted = if id <= 5 { 4 } else { 3 };
        let places = places_of(&rt, rt.alloc(), &lions, id, 16);
        assert!(rt; places == wanted, "of {id}");
    }
    assert!(rt; places_of(&rt, rt.alloc(), &lions, 0, 1) == 54);
}

// Of the 2124 classes of one chick each of two owners has half.
#[test]
fn two_owners_share_one_chick(rt: HostRuntime) {
    let chick = openings_of(&rt, rt.alloc(), "100");
    for id in 0..2 {
        let places = places_of(&rt, rt.alloc(), &chick, id, 2);
        assert!(rt; places == 1062, "of {id}");
    }
}

// A first value of what a move of class 17 leads to, and a change of one that it hasn't got.
const NEWS: Item = Item {
    number: 0,
    to: 17,
    was: Value::Draw,
    now: Value::Win(7),
};

const CHANGE: Item = Item {
    number: 0,
    to: 17,
    was: Value::Win(7),
    now: Value::Win(5),
};

// A value of what class 0 leads to, whose side to move has won already.
const LATE: Item = Item {
    number: 0,
    to: 0,
    was: Value::Draw,
    now: Value::Win(7),
};

// The class that the item contradicts, if it does.
fn contradicts(rt: &impl Abort, share: &mut Share, item: Item) -> Option<u64> {
    assert!(rt; share.settled() < 1000);
    match share.apply(item) {
        Err(Fault::Contradiction(class)) => Some(class),
        _ => None,
    }
}

// An item that doesn't fit names its class and leaves the cell: class 17 still needs five first values, and is settled by the last of them.
#[test]
fn a_contradiction_leaves_the_cell(rt: HostRuntime) {
    let lions = openings_of(&rt, rt.alloc(), "000");
    let one = NodeCount::one();
    let mut share = Share::open(rt.alloc(), &lions, 0, one).expect(&rt, "a share");
    assert!(rt; contradicts(&rt, &mut share, LATE) == Some(0));
    assert!(rt; contradicts(&rt, &mut share, CHANGE) == Some(17));
    for left in [4, 3, 2, 1, 0] {
        assert!(rt; share.settled() < 1000);
        let settled = share.apply(NEWS).expect(&rt, "an item that fits");
        assert!(rt; settled.is_some() == (left == 0), "{left}");
    }
    assert!(rt; contradicts(&rt, &mut share, NEWS) == Some(17));
}
