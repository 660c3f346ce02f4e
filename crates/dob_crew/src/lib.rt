// Crews from their opening to their close: a board of words with a runner for each node (`dob_runner`), whose ends of the inboxes belong together.
//
// The files: `limits` has the sizes of a crew; `crew_open` and `crew_close` open and close one.
//
// Choices:
// - A crew opens by its endpoints (`open_endpoints`) and closes by their parts (`part_runners`). A crew that runs out of memory while it is closed is given up.
// - Each node finds the openings of its own classes in its own task (`open_runner`), so that nothing is found one by one before the nodes open.
#![tactic(auto)]

mod crew_close;
mod crew_open;
mod limits;

pub use crew_close::{ClosedCrew, close_runners};
pub use crew_open::{crew, crew_of};
pub use limits::{BATCH, CAPACITY, CrewSizes};
