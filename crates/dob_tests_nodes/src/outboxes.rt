// What fills the outbox of owner 0 of two for owner 1, in the set of lions alone, and what is cut of it.
ghost use Rattle.std.specs.Prelude.{◌≡◌};

use crate::sets::classes_of;
use dob_classes::Classes;
use dob_share::Settlement;
use dob_unmove::back;
use dob_update::{Batch, BatchSize, Outbox, push_items};
use dob_value::Value;
use std::alloc::Global;
use std::process::Abort;

/// The settlement of a class that turns from a draw to a win in 7 plies.
pub(crate) fn won(number: u64, class: u64) -> Settlement {
    Settlement {
        number,
        class,
        was: Value::Draw,
        now: Value::Win(7),
    }
}

/// Adds the settlement with its items.
pub(crate) fn add(
    rt: &impl Abort,
    alloc: Global,
    classes: &Classes,
    outbox: &mut Outbox,
    settlement: Settlement,
)
    requires family { outbox.old.sends.family ≡ classes.now.family }
    requires n { outbox.old.sends.n ≡ 2 }
    requires to { outbox.old.sends.to ≡ 1 }
    ensures family { outbox.new.sends.family ≡ classes.now.family }
    ensures n { outbox.new.sends.n ≡ 2 }
    ensures to { outbox.new.sends.to ≡ 1 }
{
    assert!(rt; settlement.class < classes.class_count());
    let predecessors = back(alloc, classes, settlement.class).expect(rt, "memory");
    let mut items = Vec::new(alloc);
    push_items(&mut items, settlement, &predecessors, 2, 1).expect(rt, "memory");
    outbox.add(settlement, &items).expect(rt, "memory");
}

/// An outbox with the five items of one settlement.
pub(crate) fn filled(rt: &impl Abort, alloc: Global) -> Outbox {
    let classes = classes_of(rt, alloc, "000");
    let mut outbox = Outbox::new(alloc, classes.family, 2, 0, 1);
    add(rt, alloc, &classes, &mut outbox, won(0, 16));
    outbox
}

/// The next batch of at most `size` items.
pub(crate) fn cut(rt: &impl Abort, outbox: &mut Outbox, size: usize) -> Batch
    ensures family { (result.family ≡ outbox.old.sends.family) × (outbox.new.sends.family ≡ outbox.old.sends.family) }
    ensures n { (result.n ≡ outbox.old.sends.n) × (outbox.new.sends.n ≡ outbox.old.sends.n) }
{
    assert!(rt; outbox.cut_count() < 100);
    let size = BatchSize::new(size).expect(rt, "a size");
    let batch = outbox.cut(size).expect(rt, "memory");
    batch.expect(rt, "a batch")
}
