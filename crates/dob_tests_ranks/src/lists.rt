// Lengths of segments, and lists of more items than one segment of the greatest length has, of which what is said at 2^20 and past it rests on no clause
// where memory is refused.
use dob_lists::{SegmentLength, Segments};
use std::process::Abort;

// How many items a segment has at most.
const MOST: u64 = 1 << 20;

#[test]
fn lengths_of_segments(rt: HostRuntime) {
    assert!(rt; SegmentLength::of(0).is_none());
    assert!(rt; SegmentLength::of((1 << 20) + 1).is_none());
    for (items, kept) in [(1, 1), (7, 4), (8, 8), (1 << 20, 1 << 20)] {
        let length = SegmentLength::of(items).expect(&rt, "a length");
        assert!(rt; length.items() == kept);
    }
    assert!(rt; SegmentLength::longest().items() == 1 << 20);
}

#[test]
fn a_push_into_a_second_segment(rt: HostRuntime) {
    let mut list = Segments::new(rt.alloc(), SegmentLength::longest());
    for number in 0..MOST + 1 {
        list.push((number % 251) as u8).expect(&rt, "memory");
    }
    assert!(rt; list.len() == MOST + 1);
    assert!(rt; list.get(MOST - 1) == 148 && list.get(MOST) == 149);
    assert!(rt; list.segment_length().items() == 1 << 20);
}

// The list has `count` sevens, in segments of the greatest length.
fn has_sevens(rt: &impl Abort, list: &Segments<u8>, count: u64) {
    assert!(rt; list.len() == count && list.segment_length().items() == 1 << 20);
    assert!(rt; list.iter().all(|item| item == 7));
}

#[test]
fn filled_past_a_segment(rt: HostRuntime) {
    for count in [MOST - 1, MOST, MOST + 1] {
        let list = Segments::filled(rt.alloc(), SegmentLength::longest(), count, 7u8);
        has_sevens(&rt, &list.expect(&rt, "memory"), count);
    }
}
