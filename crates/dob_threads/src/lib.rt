// A thread for each of several runners, in which it makes its turns.
//
// The files: `threads` starts the threads and waits for them; `handed` is what goes over the ring.
//
// Choices:
// - A thread is handed its runner over a ring for one (`rtrb`): it is started first and waits for it. So if no thread can be made the runner never left its
//   place, and that it has made no turn is a clause (`GivesUp`). Both ends of the ring meet again at the join, so the runner that is returned is the one
//   that was handed over (`IsHandedOn`, `IsEndOf`).
// - The room for the runners that are returned is made before the first thread begins (`end_all`).
#![tactic(auto)]

mod handed;
mod threads;

pub use threads::run_each;
