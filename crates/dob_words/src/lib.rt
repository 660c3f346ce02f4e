// Subcommands, options and help texts: what the words of a command line ask for, and how `clap` reads them.
//
// Choices:
// - A flag is an option without a text to `clap` (`num_args(0)`), not a `SetTrue`, so what words give is one list.
// - A subcommand is one row of a table (`src/rows.rt`), from which `clap`'s command, the help, the meaning of words, the manual page and the completions
//   are made.
// - POSITION and `--each` exclude each other by `without_conflict`, a last look at what `clap` took: `clap`'s contracts say when a parse fails only of arguments
//   without rules on one another.
// - `--` before POSITION is taken as `clap` takes it. `--version` asks for the version only as the first word. The number of nodes is read as 64 bits:
//   digits that fit are E9, and only what is no such number is a usage error.
#![tactic(auto)]

pub mod command;
pub mod rows;
pub mod table;
