// Lists of all openings: threads and one thread make them in segments of the length that is asked for, also past the first segment, where what is said
// rests on no clause where memory is refused. That both lists are the openings of the classes is a clause; nodes find those of their own in builds.
use crate::sets::classes_of;
use dob_history::opening;
use dob_lists::{SegmentLength, Segments};
use dob_run::scan;
use dob_share::Opening;
use std::alloc::Global;
use std::process::Abort;
use std::thread::Threads;

// Whether the list has so many openings, in segments of so many.
fn has_listed(list: &Segments<Opening>, count: u64, items: u32) -> bool {
    list.len() == count && list.segment_length().items() == items
}

// Whether both lists have the same openings.
fn are_same(one: &Segments<Opening>, other: &Segments<Opening>) -> bool {
    let count = one.len();
    if other.len() != count {
        return false;
    }
    for class in 0..count {
        let first = one.get(class);
        let second = other.get(class);
        if (first.status, first.moves) != (second.status, second.moves) {
            return false;
        }
    }
    true
}

// The openings of a set of so many classes are listed in segments of so many items.
fn are_listed(
    rt: &(impl Abort + Threads + Sync),
    alloc: Global,
    name: &str,
    count: u64,
    items: u32,
) {
    let classes = classes_of(rt, alloc, name);
    let length = SegmentLength::of(items).expect(rt, "a length");
    let scanned = scan(rt, alloc, &classes, length).expect(rt, "openings");
    assert!(rt; has_listed(&scanned, count, items));
    let listed = opening(alloc, &classes, length).expect(rt, "openings");
    assert!(rt; has_listed(&listed, count, items) && are_same(&scanned, &listed));
}

// The set with as many classes as that, two elephants and two giraffes, stands in testdata/counts.txt: with no chick both profiles are one.
#[test]
fn many_threads_find_what_one_does(rt: HostRuntime) {
    are_listed(&rt, rt.alloc(), "001", 1116, 1);
    are_listed(&rt, rt.alloc(), "001", 1116, 4);
    are_listed(&rt, rt.alloc(), "022", 1_707_030, 1 << 20);
}
