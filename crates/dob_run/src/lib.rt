// Builds by threads, from a family to its table. A crew is a board of words with a runner for each node (`dob_crew`). A thread
// turns each runner (`dob_threads`), until the board says that the run has ended or that a node failed it; then the crew is closed, and what its
// nodes show is the table.
//
// The files: `crew_turns` opens a crew and lets it make its turns; `build*` is a whole build; `laws` says that a crew at its end holds the value table.
//
// Choices:
// - `finish` looks for a failure before it takes memory: what each runner knows of the halt names the node, so `Memory` comes only if no node has failed
//   (`AreFailureless`).
// - A runner that fails after the end was announced stops the build all the same: the others don't know what it would have done.
// - A build opens the classes of its family once, and its table takes them over (`dob_gather`).
#![tactic(auto)]

mod build;
mod build_end;
mod built_table;
mod crew_turns;
mod laws;

pub use build::{build_by, run_nodes};
pub use build_end::{find_failed, finish};
pub use built_table::Built;
pub use crew_turns::{EndedCrew, run_crew};
pub use dob_crew::{BATCH, CAPACITY, ClosedCrew, CrewSizes, close_runners, crew};
pub use dob_gather::scan;
pub use dob_runner::{AlwaysOpen, Gate, Runner};
pub use dob_share::BuildFault as Fault;
pub use laws::finished_is_right;
