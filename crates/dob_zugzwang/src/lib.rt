// Zugzwangs: positions in which neither side wants to move, in pairs of a position and its turn, by a table; and how many pairs there are.
//
// A position is always seen from the side to move. So its turn, the same board with the other side to move, is the turned setup: the
// board by a half turn, the sides and the hands exchanged.
#![tactic(auto)]

mod counts;
pub mod laws;
mod pairs;

pub use counts::{PairCounts, count_pairs};
pub use pairs::{Zugzwang, zugzwangs};
