// Inboxes of batches: from nodes' threads to another's, in order for each sender and without loss.
//
// Choices:
// - An inbox's ends learn what happened before (`Told`): with each batch an end learns what all senders had sent and what had been taken by then. `Full` and
//   `None` name a later moment, so a body that answers them without a look at the inbox meets no clause. They don't say that the moment lies within the
//   call; tests show it.
// - An inbox's rule has one list of all that was sent: what was taken and then what is held. A filter gives each sender's part.
// - An inbox's passes count its senders before the first of them is opened, since a pass learns nothing later.
// - `rejoin_inbox` takes until the inbox is empty. Each sender's room was made for what it sent beyond what was taken, so no growth can be refused once a
//   pass has ended.
#![tactic(auto)]

mod ends;
mod inboxes;
mod pairs;
mod rejoins;
mod rule;

pub use ends::{Full, RejoinFault, Rejoined, SendEnd, TakeEnd};
pub use inboxes::inbox;
pub use pairs::{pair, rejoin};
pub use rejoins::rejoin_inbox;
