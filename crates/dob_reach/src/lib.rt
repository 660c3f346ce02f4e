// What a game can reach: the classes to which moves lead from one class, in how many plies at least, and how many of them have which value.
//
// Choices:
// - What is reached are classes, not positions: a class is reached exactly if a play comes to one of its members (`plays_meet_classes`, `classes_are_met`).
//   Whether both are would take a second bit a class.
// - One thread marks. A round looks at the moves of 2^18 classes by all threads, which leave out what is marked; their lists return in order and go through
//   one loop, so the proof is that of one thread.
// - A class is marked when it is listed: else it stands in the list as often as others lead to it. Values are counted behind the search, in the order of the
//   classes, since random look-ups would wait for memory.
#![tactic(auto)]

mod codes;
pub mod laws;
mod marks;
mod parts;
mod search;
mod values;

pub use search::{Reached, Watch, reach};
pub use values::ByValue;
