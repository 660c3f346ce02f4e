// The cells of one owner's classes: what the settlements of other classes, item by item, make of their values. And why a node stops, and why a build gives
// nothing (`Cause`, `BuildFault`): below the nodes, so that a crate which only prints it need not wait for them.
//
// Choices:
// - A `Share` shows its classes by functions (`cell_at`, `status_at`), since the value of a model can't be a function. More than 2^32 moves or classes in
//   one share is out of memory: the largest set has 1,131,798,805 moves and 588,021,930 classes.
// - Only open classes have cells, 19 in 100 of those of `222`. Statuses are three bits a class, 64 classes in a word with the number of open ones before
//   them, so one look-up says whether a class is open and which cell it has (`opens_below`). Any other class reads as a cell without moves.
// - A run has an entry for each counted win, its distance, and its slot says how many are in use, so first news of a win is written without reading the next
//   slot or the pool. It has fewer than 64 entries, since a class has at most 63 moves (none was seen to have more than 38).
// - An owner is found without a division: `remainder` and `quotient` match the number of nodes. Four divisions an edge were some 17 % of an expansion.
// - The cells of 32 items are read before the first of these is applied, so that their memory is fetched at once: first the statuses of all, which give
//   the cells' numbers, then the cells. No item changes what is read (`IsSeen`), and it is used later, so the compiler can't drop the read.
// - An item is applied by its row of the table, a function each. Only a win of the enemy writes to the pool; the run is read when the last move becomes
//   known and no loss is, and for a better win.
// - A settlement's number is its place in its node's history. A share's lists have segments as long as those of its openings.
#![tactic(auto)]

mod build_fault;
mod cause;
mod cells;
mod fault;
pub mod laws;
mod listed;
mod news;
mod opening;
mod owners;
mod share;
mod statuses;
mod steps;

pub use build_fault::BuildFault;
pub use cause::{Cause, Stopped};
pub use fault::Fault;
pub use listed::opening_at;
pub use news::{Item, News, Part, Settlement, item_for};
pub use opening::Opening;
pub use owners::{owner, quotient};
pub use share::{Seen, Share, places_among};
pub use statuses::Statuses;
