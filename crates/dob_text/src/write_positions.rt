// Positions as text.
ghost use Rattle.std.specs.Prelude.{◌≡◌, ◌++◌, ◌<◌, ◌+◌, OnOk, IfOk};
ghost use Rattle.std.specs.String.{string_bytes};
ghost use Rattle.dob_text.specs.PositionText.{row_text, board_text, hand_letters, hand_text, text_of};

use crate::letters::{cell_letter, piece_letter};
use crate::pushes::{push_byte, push_times};
use dob_pieces::{Hand, Kind, Memory, Piece, Position, Side, Square};
use std::alloc::{AllocError, Global};

// Writes the letters of a row at the end, from its first square on.
fn push_row(
    text: &mut String,
    board: &[Option<Piece>; Square::COUNT],
    square: usize,
) -> Result<(), AllocError>
    requires { square + 2 < 12 }
    ensures { OnOk result (string_bytes text.new ≡ string_bytes text.old ++ row_text board.now square) }
{
    push_byte(text, cell_letter(board[square]))?;
    push_byte(text, cell_letter(board[square + 1]))?;
    push_byte(text, cell_letter(board[square + 2]))
}

// Writes the rows at the end, row 4 first.
fn push_board(text: &mut String, board: &[Option<Piece>; Square::COUNT]) -> Result<(), AllocError>
    ensures { OnOk result (string_bytes text.new ≡ string_bytes text.old ++ board_text board.now) }
{
    push_row(text, board, 9)?;
    push_byte(text, b'/')?;
    push_row(text, board, 6)?;
    push_byte(text, b'/')?;
    push_row(text, board, 3)?;
    push_byte(text, b'/')?;
    push_row(text, board, 0)
}

/// Writes the letters of a hand at the end.
pub(crate) fn push_letters(text: &mut String, side: Side, hand: Hand) -> Result<(), AllocError>
    ensures { OnOk result (string_bytes text.new ≡ string_bytes text.old ++ hand_letters side hand) }
{
    push_times(text, piece_letter(side, Kind::Chick), hand.chicks)?;
    push_times(text, piece_letter(side, Kind::Elephant), hand.elephants)?;
    push_times(text, piece_letter(side, Kind::Giraffe), hand.giraffes)
}

// Writes a hand at the end, a dash for an empty one.
fn push_hand(text: &mut String, side: Side, hand: Hand) -> Result<(), AllocError>
    ensures { OnOk result (string_bytes text.new ≡ string_bytes text.old ++ hand_text side hand) }
{
    if hand.chicks == 0 && hand.elephants == 0 && hand.giraffes == 0 {
        push_byte(text, b'-')
    } else {
        push_letters(text, side, hand)
    }
}

/// The position's text: four rows of three letters, row 4 first, joined by `/`; a space; the mover's hand; a space;
/// the enemy's hand. An empty square is `.`, an empty hand `-`; the letters are L, G, E, C and H, in upper case for the
/// mover's pieces and in lower case for the enemy's.
///
/// # Errors
///
/// `Memory` if no memory is left for the text.
pub fn write_position(alloc: Global, position: &Position) -> Result<String, Memory>
    ensures { IfOk result (λ text. string_bytes text ≡ text_of position.now.setup) }
{
    let setup = position.setup;
    let mut text = String::new(alloc);
    push_board(&mut text, &setup.board)?;
    push_byte(&mut text, b' ')?;
    push_hand(&mut text, Side::Mover, setup.hands.mover)?;
    push_byte(&mut text, b' ')?;
    push_hand(&mut text, Side::Enemy, setup.hands.enemy)?;
    Ok(text)
}
