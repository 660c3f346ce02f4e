// Families of profile A by the names of their sets, their classes, and whether two tables are one.
use dob_classes::Classes;
use dob_pieces::{Family, PieceSet, Profile};
use dob_value::{Table, Value};
use std::alloc::Global;
use std::process::Abort;

/// The classes of the family of the set of that name in profile A.
pub(crate) fn classes_of(rt: &impl Abort, alloc: Global, name: &str) -> Classes {
    Classes::open(alloc, family_of(rt, name)).expect(rt, "classes")
}

pub(crate) fn family_of(rt: &impl Abort, name: &str) -> Family {
    let set = PieceSet::read(name).expect(rt, "a set");
    Family {
        set,
        profile: Profile::A,
    }
}

/// Whether the two tables give each class one value.
pub(crate) fn is_same_table(table: &Table, other: &Table) -> bool {
    let count = table.class_count();
    if other.class_count() != count {
        return false;
    }
    for class in 0..count {
        if table.value(class) != other.value(class) {
            return false;
        }
    }
    true
}

// The record of each class of lions alone, one more than the plies, and 0 for a draw. The values are from outside.
const LIONS: [u64; 54] = [
    2, 1, 2, 2, 3, 7, 0, 7, 8, 6, 8, 2, 2, 2, 0, 5, 8, 6, 2, 2, 1, 2, 3, 2, 2, 4, 0, 6, 4, 2, 2, 2,
    2, 2, 4, 0, 1, 1, 1, 2, 2, 2, 2, 2, 2, 2, 2, 1, 1, 2, 2, 2, 2, 2,
];

/// How a value is recorded.
pub(crate) fn record_of(value: Value) -> u64 {
    match value {
        Value::Draw => 0,
        Value::Win(plies) | Value::Loss(plies) => plies as u64 + 1,
    }
}

/// Whether it is the table of lions alone: an even record is a win, and an odd one a loss.
pub(crate) fn is_lions(table: &Table) -> bool {
    let count = table.class_count();
    if count != 54 {
        return false;
    }
    for class in 0..count {
        let value = table.value(class);
        let record = record_of(value);
        let is_loss = matches!(value, Value::Loss(_));
        if record != LIONS[class as usize] || is_loss != (record % 2 == 1) {
            return false;
        }
    }
    true
}
