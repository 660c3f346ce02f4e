// The walk by masks against the reference, on whole small sets and on a part of a larger one.
ghost use Rattle.std.specs.Prelude.{◌<◌};

use crate::sets::classes_of;
use dob_reference::back;
use dob_unmove::back_into;
use std::alloc::Global;
use std::process::Abort;

// Both programs list the same predecessors of each class of the set of that name whose number the stride divides.
fn agree_on_set(rt: &impl Abort, alloc: Global, name: &str, stride: u64)
    requires { 0 < stride }
{
    let classes = classes_of(rt, alloc, name);
    let mut found = Vec::new(alloc);
    let mut expected = Vec::new(alloc);
    for class in 0..classes.class_count() {
        if class % stride == 0 {
            found = back_into(found, &classes, class).expect(rt, "memory");
            expected = back::back_into(expected, &classes, class).expect(rt, "memory");
            assert!(rt; found.as_slice() == expected.as_slice(), "of {class}");
        }
    }
}

#[test]
fn predecessors_of_small_sets_agree(rt: HostRuntime) {
    agree_on_set(&rt, rt.alloc(), "100", 1);
    agree_on_set(&rt, rt.alloc(), "200", 1);
    agree_on_set(&rt, rt.alloc(), "011", 1);
    agree_on_set(&rt, rt.alloc(), "111", 97);
}
