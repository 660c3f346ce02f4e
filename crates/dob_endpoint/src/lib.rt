// What a runner of a build by threads sends and takes by: its seat on the board, its outlets to the inboxes of all nodes and the inlet of its own. The seat
// counts what goes over the links.
//
// The files: `slots` and `slot_steps` are the ends with their slots; `endpoint` joins them to a seat, which counts; `words` is what is done with the words of
// the board besides the counts.
//
// Choices:
// - A runner has an outlet for its own node too, unused, so that places are node numbers. A batch lies in a slot from its count until the inbox takes it, or
//   from the inbox until it is counted: so a seat's counts are the batches of its links.
// - A failure is an event of the board's log (`BoardEvent`), so the halt word follows from the log (`halt_told`). Each seat's log has all moves of its own
//   node (`token_moves_of`), so that a call moved no token is a fact of two logs.
#![tactic(auto)]

mod endpoint;
mod slot_steps;
mod slots;
mod words;

pub use endpoint::Endpoint;
pub use slots::{Inlet, Outlet};
