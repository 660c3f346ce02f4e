// Numbers in an order that looks random and is the same each time for the same seed.
//
// Choices:
// - The order is computed, not kept: a number's place and a place's number each take six words of SplitMix64 and no memory, so a walk that
//   ends early looks at no more than it passed.
// - Numbers lie row by row on a square, and three rounds turn each column by a word of its row, and each row by a word of its column: a
//   Feistel network (Luby and Rackoff 1988) over remainders in place of bits. The square has some places more than there are numbers; what
//   lies there is skipped.
// - It is no cipher: whoever sees enough of an order can find its seed.
#![tactic(auto)]

pub mod laws;
mod rounds;
mod shuffle;

pub use rounds::Cell;
pub use shuffle::Shuffle;
