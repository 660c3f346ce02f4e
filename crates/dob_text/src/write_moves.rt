// Moves as text.
ghost use Rattle.std.specs.Prelude.{◌≡◌, ◌++◌, OnOk, IfOk};
ghost use Rattle.std.specs.String.{string_bytes};
ghost use Rattle.dob_text.specs.MoveText.{side_of, seen, square_text, move_text};

use crate::letters::piece_letter;
use crate::pushes::push_byte;
use dob_moves::Move;
use dob_pieces::{Memory, Side, Square};
use std::alloc::{AllocError, Global};

// Whose move it is, seen from the side to move in the first position.
fn mover_side(second: bool) -> Side
    ensures { result ≡ side_of second }
{
    if second { Side::Enemy } else { Side::Mover }
}

// The square as the side to move in the first position sees it.
fn seen_square(second: bool, square: Square) -> Square
    ensures { result ≡ seen second square }
{
    if second { square.turned() } else { square }
}

// Writes the square's name at the end.
fn push_square(text: &mut String, square: Square) -> Result<(), AllocError>
    ensures { OnOk result (string_bytes text.new ≡ string_bytes text.old ++ square_text square) }
{
    push_byte(text, b'a' + square.column() as u8)?;
    push_byte(text, b'1' + square.row() as u8)
}

// Writes the move at the end.
fn push_move(text: &mut String, played: Move, second: bool) -> Result<(), AllocError>
    ensures { OnOk result (string_bytes text.new ≡ string_bytes text.old ++ move_text played second) }
{
    let side = mover_side(second);
    match played {
        Move::Step {
            kind,
            from,
            to,
            catch,
            grows,
        } => {
            push_byte(text, piece_letter(side, kind))?;
            push_square(text, seen_square(second, from))?;
            push_byte(text, if catch { b'x' } else { b'-' })?;
            push_square(text, seen_square(second, to))?;
            if grows { push_byte(text, b'+') } else { Ok(()) }
        }
        Move::Put { kind, to } => {
            push_byte(text, piece_letter(side, kind.on_board()))?;
            push_byte(text, b'*')?;
            push_square(text, seen_square(second, to))
        }
    }
}

/// The move's text: of a step the piece's letter before the step, its first square, `-` or `x` for a catch, its last
/// square, and `+` if a chick becomes a hen; of a drop the letter, `*` and the square. `second` says that the move
/// is of the side that isn't to move in the first position of a line: its letter is then in lower case, and its
/// squares are turned back.
///
/// # Errors
///
/// `Memory` if no memory is left for the text.
pub fn write_move(alloc: Global, played: Move, second: bool) -> Result<String, Memory>
    ensures { IfOk result (λ text. string_bytes text ≡ move_text played second) }
{
    let mut text = String::new(alloc);
    push_move(&mut text, played, second)?;
    Ok(text)
}
