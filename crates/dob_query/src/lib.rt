// What the program answers of a position, by definition, by a database file's table or by its records, one or each line's; and the sizes of a set.
//
// Choices:
// - `show` draws in letters, those of a position's text; `show --svg` makes its file last.
// - `look --each` reads the header once, before standard input; a record that isn't whole refuses its line alone, a device that fails ends all.
// - A record is read by its place, so that what is read of a file grows with what is asked, and not with the file. Neither other records nor the digest
//   are looked at.
// - The whole table and the records of a file are asked by the same code, as what says values (`ValueSource`): `probe` and `line` by the one, the others by the other.
#![tactic(auto)]

mod counts;
mod questions;
mod questions_each;
mod records;
mod shows;
mod values;

pub use counts::answer_count;
pub use questions::answer_question;
pub use questions_each::answer_question_each;
pub use records::Records;
pub use shows::answer_show;
pub use values::answer_value;
