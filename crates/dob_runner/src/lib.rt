// One runner of a build by threads, and its turns: a node beside its endpoint, which is its seat on the board, its outlets to the
// inboxes of all nodes and the inlet of its own. It makes turns until the board says that the run has ended or that a node failed
// it, or N turns.
//
// The files: `batches` tells which batches are for the node; `turn*` are its turns; `pace` and `pause` are how it waits. What a runner sends and takes by is
// `dob_endpoint`.
//
// Choices:
// - A white runner may have a batch in a taking slot: it is still in flight. A runner that passes the token or announces the end tests both kinds of slots
//   (`IsAtRest`).
// - A runner takes a batch only if it is one for its node, of its family, with values that a table can have: no inbox promises that. Then the node makes
//   room, and then the board counts.
// - What a runner knows is said by all histories that can have led to what it applied, not by a log of arrivals. So it refuses an item that doesn't fit as
//   E13, and only all runners together show that none comes.
// - How much a turn expands has no contract, except that it is something if nothing holds the runner up and its level isn't above the limit.
// - Runners keep pace (`Pace`): each says on which level its node is, in a word that only hints, and expands none more than one level above the least that it
//   was told of the others (`HearsLimit`). What a word holds when it is read no contract knows. The runner on the least level is never above its limit, so no
//   two wait for each other. When its level rises it sends small batches too.
// - A runner that has nothing to do sleeps after some yields, 50 microseconds at first and 1 ms at most. Nobody wakes a sleeper, and one with a batch in a
//   slot doesn't sleep.
// - `Gate::worked` has no default body: its clause says a relation of the gate's own. A runner's family stands beside its node, since nothing is said of a
//   node out of memory. Each step reports its own failure: between its node's failure and its own the runner isn't one by its type, so no method can be
//   called there.
#![tactic(auto)]

mod batches;
mod gate;
mod pace;
mod pause;
mod runner;
mod turn;
mod turn_loop;
mod turn_rounds;
mod turn_steps;
mod turn_token;

pub use dob_endpoint::{Endpoint, Inlet, Outlet};
pub use gate::{AlwaysOpen, Gate};
pub use pace::Pace;
pub use runner::Runner;
pub use turn_loop::Until;
