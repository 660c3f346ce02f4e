// A link at its capacity.
use crate::outboxes::{cut, filled};
use dob_update::Capacity;
use dob_world::{Link, ListLink};

#[test]
fn a_full_link_hands_the_batch_back(rt: HostRuntime) {
    let mut outbox = filled(&rt, rt.alloc());
    let first = cut(&rt, &mut outbox, 2);
    let second = cut(&rt, &mut outbox, 2);
    let one = Capacity::new(1).expect(&rt, "a capacity");
    let mut link = ListLink::open(rt.alloc(), one).expect(&rt, "a link");
    assert!(rt; link.offer(first).is_ok());
    let back = link.offer(second).expect_err(&rt, "no room").batch;
    assert!(rt; back.classes() == [27, 35].as_slice());
    assert!(rt; link.next().is_some());
    assert!(rt; link.offer(back).is_ok());
}
