// What tests and measurements compare the fast code with: the rules (`rules`) and the way back (`back`) square by square, as the definitions go, and a build
// by one node that owns all classes of a family (`alone`), without links and threads. Nothing else calls them.
//
// Choices:
// - `alone` applies all its own items before it expands a further settlement, and its contract says so: else a body that gives up within `limit` would meet
//   it.
// - A cause that a step never gives is impossible here; so E13 has a variant, and `alone` promises that it never comes.
#![tactic(auto)]

pub mod back;
mod earlier;
mod fault;
mod first_moves;
mod one_owner;
pub mod rules;
mod walk;

pub use fault::Fault;
pub use one_owner::alone;
