// Tables of values: the value of each class of a family, by sweeps, and what a move of a family's position leads to.
//
// Choices:
// - A sweep stores the successors of each class while it runs, so moves are made once and not once a sweep. Its entries have 4 bytes, those of the table 2:
//   a sweep at the greatest distance may find the next one, which has no code.
// - No set comes near a distance of 65,534: cells and codes are tested for it, sweeps are not, since that test would need 65,535 classes in a row.
// - A table asks a closure for each class's value (`Table::from_fn`), so one file alone knows its codes. Only a crew and a reader of a file hand codes over
//   (`Table::new`).
#![tactic(auto)]

mod graph;
pub mod laws;
mod outcomes;
mod position_value;
mod sweep;
mod table;

pub use dob_distance::{MAX_DISTANCE, Value, ValueFault as Fault, code_of_value, value_of_code};
pub use outcomes::{class_after, class_of, outcome_at, outcome_of, representative_of};
pub use position_value::{sweep_table, sweep_value};
pub use table::Table;
