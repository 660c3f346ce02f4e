// Moves taken back: from which classes of positions, and by how many of their moves, a class is reached.
//
// Choices:
// - `back_into` takes the caller's list by value and hands it back; out of memory the list is lost.
// - What stood before the mirror image of a class's representative is the mirror image of what stood before that, so one walk finds the classes of both. A
//   position before that is its own mirror image counts twice; where the representative is its own, only representatives count.
// - The walk by masks skips a way if no open position can have stood before it: a piece attacked the enemy lion, or the mover's lion stood on row 4. The
//   plain walk, which looks at every way back over cells (`dob_reference`), has the same promise; what the two share of a way is public
//   (`RetroMove`, `Threat`, `may_give_back` and the like).
// - Contracts speak of setups by the numbers of their classes; the code reads boards, and makes no cells.
#![tactic(auto)]

mod attackers;
mod bits_before;
mod earlier;
mod predecessors;
mod undo;
mod ways;

pub use attackers::Threat;
pub use earlier::{enemy_cell, holds_caught, may_give_back, without_caught};
pub use predecessors::{back, back_into};
pub use undo::RetroMove;
