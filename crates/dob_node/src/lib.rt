// One node of a build: its cells and history, and what it has to send and to apply.
//
// Choices:
// - A step that meets an error leaves its node as it was (`IsUnchanged`), except that it has failed; only `apply_batch` has applied the items before the
//   refused one. `reserve` makes its growths beforehand.
// - A node's core steps, and the node notes what failed (`Core`, `noted`). Calls that grow it or apply items ask that it hasn't (`going`).
// - `expand` makes room in all queues before it adds to one, so that nothing has to be taken back.
// - A node has an outbox for itself too, which stays empty, so that outboxes stand by the numbers of their receivers. Its own items wait in a queue alone,
//   since none of them is cut.
#![tactic(auto)]

mod node;
mod node_core;
mod outboxes;

pub use dob_history::{laws, opening, opening_in};
pub use dob_share::{Cause, Opening, Stopped};
pub use node::{Node, Part};
pub use node_core::MAX_BATCHES;
