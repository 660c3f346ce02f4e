// `stats`, `check`, `puzzles`, `zugzwangs`, `migrate` and `reach`: what the program answers of a whole table, and which classes a game can reach.
//
// Choices:
// - `reach` with a file goes by the file's rules, whatever `--rules` says.
// - `stats` finds the longest ends by their groups; a kind that doesn't occur has no line.
// - `puzzles` answers a length that no puzzle has by a line with status 2, since `clap` has no rule for odd numbers.
// - `migrate` reads the whole file into a table and writes it as `build` does: no digest is carried over, both names may be one, and a damaged file makes no
//   other.
#![tactic(auto)]

mod checks;
mod migrations;
mod puzzles;
mod reaches;
mod stats;
mod zugzwangs;

pub use checks::answer_check;
pub use migrations::answer_migrate;
pub use puzzles::answer_puzzles;
pub use reaches::answer_reach;
pub use stats::answer_stats;
pub use zugzwangs::answer_zugzwangs;
