// Families by the names of their sets, and tables that are to be one.
use dob_pieces::{Family, PieceSet, Profile};
use dob_value::Table;
use std::process::Abort;

/// The family of the set of that name in that profile.
pub(crate) fn family(rt: &impl Abort, name: &str, profile: Profile) -> Family {
    let set = PieceSet::read(name).expect(rt, "a set");
    Family { set, profile }
}

/// The two tables give each class one value.
pub(crate) fn are_one_table(rt: &impl Abort, table: &Table, other: &Table) {
    let count = table.class_count();
    assert!(rt; other.class_count() == count);
    for class in 0..count {
        assert!(rt; table.value(class) == other.value(class));
    }
}
