// What programs in other languages see of positions, values and faults: numbers. The libraries for them (`dobutsu_c`, `dobutsu_web`) make their structs of these.
#![tactic(auto)]

mod cells;
mod faults;
mod headers;
mod moves;
mod profiles;
mod statuses;
mod texts;
mod values;

pub use cells::{cell_number, cell_of};
pub use faults::{file_number, position_number, text_number};
pub use headers::{DobutsuHeader, shown_header};
pub use moves::{DobutsuStep, shown_step};
pub use profiles::{profile_number, profile_of};
pub use statuses::status_number;
pub use texts::{DobutsuText, position_text, written};
pub use values::{outcome_number, plies_of};
