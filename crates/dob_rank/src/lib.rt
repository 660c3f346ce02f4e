// Ranks: the positions of a piece set in the order of their key. The key is, in this order: the numbers of
// chicks (hens counted with them), elephants and giraffes on the board; the numbers of them in the mover's
// hand; the square of the mover's lion and that of the enemy's; the squares of the chicks, of the elephants and
// of the giraffes, each list ascending; and in those squares' order the forms of the pieces.
//
// A rank is found by arithmetic: the positions with the same numbers on the board are a block, and within its
// block a position is a number in mixed radix, with a digit for each further part of the key. The modules that
// are public are what classes (dob_classes) are found by.
//
// Choices:
// - A family has no numbering of its own. All positions of its set are numbered (`src/set_ranks.rt`), and its own are marked ranks among them: size, rank
//   and class number rest on one count, `present_before`.
// - The positions of a family in one run are numbered among themselves (`place_of_number`), so lists of stretches work for any marks. In profile A the
//   numbers are the places.
// - A rank is found from a `Board`, by the sets of its squares; a position by places, each piece's among the squares that are left.
// - What stands before a choice of squares by rules B is counted by the bits of a set (`src/chick_forms.rt`), with no table.
// - What stands on a square is a `Layer`, an enum whose order is the key's; definitions go over lists of the layers' numbers (`order`).
// - No set is too large: a `PieceSet` has at most two of each kind by its type. The bound of 2^31 positions is read off the table of the blocks' starts.
#![tactic(auto)]

pub mod block;
pub mod chick_forms;
pub mod even_ways;
pub mod forms;
pub mod layers;
mod masks;
pub mod placing;
pub mod radix;
pub mod ranks;
pub mod run_places;
pub mod runs;
pub mod set_ranks;
mod starts;

pub use ranks::{rank, size, unrank};
