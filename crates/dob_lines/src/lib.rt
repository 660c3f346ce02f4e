// Values, moves, positions and counts as the lines and JSON objects that the program prints, and how far some work is.
//
// Choices:
// - Progress is estimated by settlements: those expanded, of as many as there are classes. Drawn classes have none (0.5 to 7 %), improved ones several;
//   before the end it is 99 % at most. The threads that work write the lines, through the handle `rt` (`Console`), so no promise of `err` needs an
//   exception.
// - Each class has a tally of its one value (`tally_of`), and tallies are added up in whatever parts the threads get (`AreAddedUp`); the sum wraps, since a
//   reduction adds up any two.
#![tactic(auto)]

mod objects;
mod played;
mod progress;
mod tally;
mod texts;
mod valued_moves;
mod values;

pub use objects::{count_object, line_object, moves_object, value_object};
pub use played::{moves_lines, played_drawing};
pub use progress::{Console, Progress, tell_need};
pub use tally::lines_of;
pub use texts::joined;
pub use valued_moves::{best_move_line, move_lines};
pub use values::line_of;
