// Positions and moves as text. A text that is read is the one text of its position, and each fault says what
// the text lacks.
//
// Choices:
// - A picture's background is a constant that the definition names. What the animals look like is judged by eye; where each piece stands and which way it
//   looks is proved.
// - A hand in a picture has a row for each kind, as far from its player as rows 1, 2 and 3, so no place depends on another kind's count.
// - Counts in a hand are one byte: reading takes 255 for more letters than that, and E5 refuses it as it would the true count.
#![tactic(auto)]

mod boards;
mod draw_boards;
mod fault;
mod hands;
mod letters;
mod parts;
mod pictures;
mod pushes;
mod read_positions;
mod setups;
mod write_lines;
mod write_moves;
mod write_positions;

pub use draw_boards::draw_position;
pub use fault::TextFault;
pub use letters::{cell_letter, piece_letter};
pub use pictures::picture_position;
pub use read_positions::{read_position, read_position_bytes};
pub use write_lines::write_line;
pub use write_moves::write_move;
pub use write_positions::write_position;
