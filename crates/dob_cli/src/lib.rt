// The command line of `dobutsu`: from words to printed bytes and an exit status.
//
// Choices:
// - What is owed for words is said of what is read of them: there is a reading that they ask for, and it is done (`Ran`). So a subcommand is a case in
//   `specs/Orders.antt`, and no field of `Ran`.
// - If a fault's line finds no memory to be formatted, E23 comes in its place, with its status.
// - The program's streams are sinks, as a file is (`run_over`, `run_given`): one trait says what came in, where it was flushed, whether a call failed.
//   `run_words` takes any writers of the standard library, hands each behind `Lent` to `run_over`, and says the same of the bytes that they received;
//   `Write` can't say whether a writer was flushed or failed.
#![tactic(auto)]

pub mod laws;
mod program;
mod shown;

pub use dob_files::ProgramFault;
pub use dob_lines::{Console, Progress};
pub use dob_shelf::{
    Claim, Device, DiskFile, DiskShelf, ErrorRecorder, LastError, MemShelf, Shelf, ShelfFault,
};
pub use program::{run_given, run_over, run_words, tell_memory};
