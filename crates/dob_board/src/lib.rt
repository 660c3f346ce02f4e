// The words that the threads of a build share, and through which alone they find out that it has ended: how many batches
// each node posted to each other one and how many of those were taken, the token of the ring, and the halt. Each word
// changes in single atomic steps, with no lock. A thread steps with a seat, which stands for its node.
//
// Choices:
// - A seat's calls are events of one history of the ring, which the board's rule keeps lawful. No contract can say that two seats' calls name the same
//   moment.
// - `announce` gives one answer for two cases: it announced, or the run had ended or failed before. `fail`, `halted` and `token` are no events of the ring.
// - A pass asks only that the seat saw the token: its runner sees that its node is idle, and asks `may_announce`.
// - Clauses name the halt's word by its number, since `words` hands the numbers out in a promised order; the code asks `Closed::halt`.
// - A seat shares the table by `Arc`, so `post`, `look` and `take` need no board beside it.
#![tactic(auto)]

mod board;
mod calls;
mod closing;
mod counts;
mod fault;
mod halt;
mod opening;
mod rule;
mod seat;
mod stops;
mod tokens;
mod view;
mod words;

pub use board::{Blackboard, Closed};
pub use counts::Counts;
pub use fault::{Fault, NotPosted};
pub use halt::Halt;
pub use seat::NodeSeat;
pub use view::SeatState;
