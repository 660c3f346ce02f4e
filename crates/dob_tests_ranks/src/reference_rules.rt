// The rules by masks against the reference program of the rules, on whole small sets and on a part of a larger one.
ghost use Rattle.std.specs.Prelude.{◌<◌};

use crate::sets::classes_of;
use dob_moves::{PositionBoard, Walk, first_catch, status};
use dob_pieces::{Position, Profile};
use dob_reference::rules;
use std::alloc::Global;
use std::process::Abort;

// Both programs say the same of the position, by the rules of that profile.
fn agree_on(rt: &impl Abort, alloc: Global, profile: Profile, position: &Position) {
    let expected = rules::moves(alloc, profile, position).expect(rt, "memory");
    let board = PositionBoard::of(position);
    let mut walk = Walk::new();
    let found = walk.start(profile, &board);
    assert!(rt; walk.moves.as_slice() == expected.as_slice());
    assert!(rt; usize::from(board.status_and_count(profile).1) == expected.len());
    let known = rules::status(profile, position);
    assert!(rt; found == known && status(profile, position) == known);
}

// They do of each of the classes of the set of that name whose number the stride divides.
fn agree_on_set(rt: &impl Abort, alloc: Global, name: &str, stride: u64)
    requires { 0 < stride }
{
    let classes = classes_of(rt, alloc, name);
    for class in 0..classes.class_count() {
        if class % stride == 0 {
            let position = classes.class_at(class);
            assert!(rt; first_catch(&position) == rules::first_catch(&position));
            agree_on(rt, alloc, Profile::A, &position);
            agree_on(rt, alloc, Profile::B, &position);
        }
    }
}

#[test]
fn rules_of_small_sets_agree(rt: HostRuntime) {
    agree_on_set(&rt, rt.alloc(), "100", 1);
    agree_on_set(&rt, rt.alloc(), "200", 1);
    agree_on_set(&rt, rt.alloc(), "011", 1);
    agree_on_set(&rt, rt.alloc(), "111", 97);
}
