// What threads find: of a table, class by class, whether it is consistent, and how many classes have which value; of a certificate,
// entry by entry, whether it proves its claim.
//
// Choices:
// - The check by threads is a crate of its own, so that the library for C, which checks in the calling thread, links no threads.
// - Classes are checked and counted in parts of 65,536. A thread looks at a part with one list of moves, which isn't copied for each class, and what is found
//   of the parts is taken in their order: a mixed order would lose "the least class".
#![tactic(auto)]

mod certificates;
mod checks;
mod counts;
mod parts;

pub use certificates::verify_watched;
pub use checks::{Unwatched, Watch, check, check_watched};
pub use counts::statistics;
