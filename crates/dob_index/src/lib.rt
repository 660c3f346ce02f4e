// An index of a family's classes: numbers in the caller's memory, written once, by which the number of a position's class is found at once. It keeps how many
// classes stand before each block, in the block before each of the first hand's runs, and in a run whose lions both stand on column b before
// every 256th of its places. The number of a class by whatever numbers is one that can be worked with: nothing is read outside of them, and no sum overflows.
//
// Choices:
// - An index is numbers in the caller's memory: no handle, nothing to free, and any number of threads read it. What stands behind the nearest entry is
//   counted (`MixedRun::walk_to`), so its contract is one sentence and needs no stretches. An entry each 256 places makes 2.2 MB for two pieces of each
//   kind. Each number is cut at 2^42 (`word`), so no test of the whole index is wanted.
#![tactic(auto)]

mod layout;
mod look_up;
mod write;

pub use layout::{classes_in, index_words, is_index_of};
pub use look_up::class_by;
pub use write::write_index;
