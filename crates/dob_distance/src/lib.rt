// What a position is worth: who wins, and in how many plies. Definitions and laws of values, their codes of 16 bits, and the faults of what finds them.
// Nothing here knows of ranks, classes or tables, so what needs no more of values is proved beside those.
#![tactic(auto)]

mod codes;
mod fault;
pub mod laws;
mod value;

pub use codes::{code_of_value, value_of_code};
pub use fault::ValueFault;
pub use value::{MAX_DISTANCE, Value};
