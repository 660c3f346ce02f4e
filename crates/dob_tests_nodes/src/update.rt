// Batches of the items of settlements in the set of lions alone, from owner 0 to owner 1 of two.
use crate::outboxes::{add, cut, filled, won};
use crate::sets::classes_of;
use dob_update::{Batch, Outbox};
use std::alloc::Global;
use std::process::Abort;

// The classes that the batch's items are for.
fn told(rt: &impl Abort, alloc: Global, batch: &Batch) -> Vec<u64> {
    let mut classes = Vec::new(alloc);
    for item in &batch.items(alloc).expect(rt, "memory") {
        classes.push(item.to).expect(rt, "memory");
    }
    classes
}

// The classes that a batch lists are these, after `skip` left out, and of `settlements` settlements.
fn tells(
    rt: &impl Abort,
    alloc: Global,
    batch: &Batch,
    classes: &[u64],
    skip: usize,
    settlements: usize,
) {
    assert!(rt; told(rt, alloc, batch).as_slice() == classes && batch.classes() == classes);
    assert!(rt; batch.skip() == skip);
    assert!(rt; batch.parts().len() == settlements);
}

// Cuts the next batch of at most `size` items, which is of one settlement and lists these classes, after `skip` left out.
fn cuts(
    rt: &impl Abort,
    alloc: Global,
    outbox: &mut Outbox,
    size: usize,
    classes: &[u64],
    skip: usize,
) {
    let batch = cut(rt, outbox, size);
    tells(rt, alloc, &batch, classes, skip, 1);
}

#[test]
fn one_settlement_in_three_batches(rt: HostRuntime) {
    let mut outbox = filled(&rt, rt.alloc());
    cuts(&rt, rt.alloc(), &mut outbox, 2, &[17, 17], 0);
    cuts(&rt, rt.alloc(), &mut outbox, 2, &[27, 35], 2);
    cuts(&rt, rt.alloc(), &mut outbox, 2, &[35], 4);
    assert!(rt; outbox.is_empty());
}

// An outbox with the items of three settlements, five, one and two.
fn filled_thrice(rt: &impl Abort, alloc: Global) -> Outbox {
    let classes = classes_of(rt, alloc, "000");
    let mut outbox = Outbox::new(alloc, classes.family, 2, 0, 1);
    add(rt, alloc, &classes, &mut outbox, won(0, 16));
    add(rt, alloc, &classes, &mut outbox, won(1, 0));
    add(rt, alloc, &classes, &mut outbox, won(2, 15));
    outbox
}

// The last item of the first settlement, and the first of the last one, which is then left out.
fn cut_over_settlements(rt: &impl Abort, alloc: Global, outbox: &mut Outbox) {
    let mut both = cut(rt, outbox, 2);
    tells(rt, alloc, &both, &[35, 9], 4, 2);
    assert!(rt; both.len() == 2);
    both.shorten(1);
    tells(rt, alloc, &both, &[35], 4, 1);
}

#[test]
fn batches_over_settlements(rt: HostRuntime) {
    let mut outbox = filled_thrice(&rt, rt.alloc());
    cuts(&rt, rt.alloc(), &mut outbox, 4, &[17, 17, 27, 35], 0);
    cut_over_settlements(&rt, rt.alloc(), &mut outbox);
    cuts(&rt, rt.alloc(), &mut outbox, 4096, &[17, 27], 1);
    assert!(rt; outbox.is_empty());
}
