// The pieces of Dobutsu shogi: squares, kinds, sides, hands, and what stands on the board. A `Position` is
// legal by its type: each side has one lion, no kind has more than two pieces, and the lion of the side to
// move doesn't stand on that side's far row.
//
// Choices:
// - A setup and a position are two types: a `Position` is a setup with a proof that it is legal. `turned` gives a setup, since a turned position may have
//   its mover's lion on row 4.
// - The steps of a kind stand in one table, columns and rows each with one added, in the order of the squares stepped to; the bits that `leads` reads are
//   proved against it.
// - A `SquareSet` is a number in contracts, and `IsMask` says which squares it has. Nothing outside of its own methods knows of bits; only ranks ask for
//   its number, to count squares below others.
// - What each cell adds to a word of planes stands in a table by kind and owner, in rows of four whose last entry is padding, so that the index is an
//   address. The seven sets of a `Board` come from the five planes of one word, to which a piece more is one sum.
// - A position has two forms. A `Setup` is twelve cells and the hands: definitions, texts and other languages speak of it. A `Board` is sets of squares by
//   side and kind, and the hands: what must be fast reads it. A relation (`IsBoardOf`) says what it shows, so contracts can speak of a setup that the code
//   doesn't have.
// - The profile of the rules is a predicate over setups (`IsAllowed`, from `may_stand`), not a type: a position stays legal by its type, and what needs a
//   position of profile B asks for one.
// - `Setup::is_allowed` is a loop with an early return, over squares and not over masks, since only texts and questions about a position ask for it.
#![tactic(auto)]

mod board;
mod changes;
mod fault;
mod hand;
mod kind;
pub mod laws;
mod memory;
mod piece_set;
pub mod planes;
mod position;
mod profile;
mod setup;
mod square;
mod square_set;
mod steps;

pub use board::Board;
pub use fault::PositionFault;
pub use hand::{Hand, Hands};
pub use kind::{HandKind, Kind, Piece, Side};
pub use memory::Memory;
pub use piece_set::{PieceSet, SetText};
pub use position::Position;
pub use profile::{Family, FarChick, Profile};
pub use setup::Setup;
pub use square::Square;
pub use square_set::{SquareSet, Squares};
pub use steps::Step;
