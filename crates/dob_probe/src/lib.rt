// Answers from a table of values: the value of a position, its line, and whether the table is consistent, and so the
// value table, whoever made it.
//
// Choices:
// - `check` answers the least class that doesn't follow, and never `Memory`, since it takes none; `check_classes` does it for a stretch of classes.
// - A move's value fits 16 bits by any table, since a table's distances are at most 65,534 by its type.
// - E26 comes before E7, also if both hold (`check_member`): it names what the profile doesn't allow, whatever the pieces.
// - `first_puzzles` ends with the last one that was asked for. With a seed the classes come in the order of a `Shuffle`, each once, so no list of all
//   puzzles is made; of positions that are alike (one block, the lions on the same squares) the first alone is listed (`IsSpread`). `--from` leaves
//   its own class out.
// - `statistics` gives the first class of each value, sorted by distance. It has a slot for each code up to the greatest that occurs.
// - `line` answers the line of any table; a capture ends it whatever the record.
#![tactic(auto)]

mod by_value;
mod checks;
mod fault;
mod gap;
mod groups;
pub mod laws;
mod lines;
mod members;
mod outlines;
mod probes;
mod puzzles;
mod successors;
mod values;
mod walks;

pub use by_value::{ValuedMove, insert_by_value, moves_by, value_seen, valued_moves};
pub use checks::{check, check_classes};
pub use fault::Fault;
pub use gap::LookupFault;
pub use groups::{Group, add_slots, groups_of, slots_between};
pub use lines::{line, line_by};
pub use members::check_member;
pub use probes::probe;
pub use puzzles::{Puzzle, first_puzzles};
pub use values::ValueSource;
pub use walks::ClassOrder;
