// The program's faults and endings; tables read from a shelf's files, files kept there, and the lines of its standard input answered.
//
// Choices:
// - With `--each` a refused line is answered on standard output, so answers stand in the order of the lines; a fault that ends all comes behind the answers
//   of the lines before. Answers are held only while the next line is at hand, and 64 KB of them at most; so each line is answered before the next is
//   waited for.
// - A file that is written is made first, filled when its lines are there, and kept when it is whole: until then it is as it was.
#![tactic(auto)]

mod certificate_fault;
mod fault;
mod keeping;
mod positions;
mod tables;
mod talk;

pub use certificate_fault::CertificateFault;
pub use fault::{Answer, ProgramFault};
pub use keeping::{fill, fill_with_table, keep_filled};
pub use positions::{file_and_position, position_in_line, position_named};
pub use tables::open;
pub use talk::{Answerer, LineAnswers, tell_each};
