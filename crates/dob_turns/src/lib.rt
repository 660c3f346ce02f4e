// Runs of a number of turns: what a crew of `dob_run` leaves whose runners make so many turns each, without the halt word and the token. It is for tests:
// what has gone over each link by then is told.
#![tactic(auto)]

mod bounded_run;

pub use bounded_run::{Turned, Worker, run_turns};
