// What several threads find of each class: the table of a build, from what its nodes show, with the digest of its file; and the openings of all classes.
//
// The files: `gathering` has the table, and `scans` the openings.
//
// Choices:
// - A table is gathered in parts of 2^20 classes (`codes_of`), and the part before goes into its list and the digest of its file meanwhile (`Parts::next`).
#![tactic(auto)]

mod gathering;
mod scans;

pub use gathering::{Gathered, gather};
pub use scans::scan;
