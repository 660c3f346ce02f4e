// The board drawn in letters.
ghost use Rattle.std.specs.Prelude.{◌≡◌, ◌++◌, ◌<◌, ◌+◌, ◌∷◌, [], flat_map, OnOk, IfOk, string_bytes};
ghost use Rattle.dob_text.specs.PositionText.{hand_letters};
ghost use Rattle.dob_text.specs.Drawings.{board_drawing, cell_drawing, cells_drawing, drawing_of, row_drawing};
ghost use Rattle.dob_text.specs.Drawings.{or_nothing, row_name, shown_letter, side_drawing, side_words};

use crate::letters::piece_letter;
use crate::pushes::push_byte;
use crate::write_positions::push_letters;
use dob_pieces::{Hand, Memory, Piece, Position, Side, Square};
use std::alloc::{AllocError, Global};

// The line above each row, and below the last one.
const BORDER: &str = "   +---+---+---+\n";

// The names of the columns, each in the middle of its cells.
const COLUMNS: &str = "     a   b   c\n";

// What the letters are.
const LETTERS: &str = "L lion, G giraffe, E elephant, C chick, H hen\n";

// The letter of what stands on a square, a space if nothing does.
fn shown_letter(cell: Option<Piece>) -> u8
    ensures value { result ≡ shown_letter cell }
    ensures ascii { result < 128 }
{
    match cell {
        Some(piece) => piece_letter(piece.side, piece.kind),
        None => b' ',
    }
}

// Draws a cell with its left border at the end.
fn push_cell(text: &mut String, cell: Option<Piece>) -> Result<(), AllocError>
    ensures { OnOk result (string_bytes text.new ≡ string_bytes text.old ++ cell_drawing cell) }
{
    text.push_str("| ")?;
    push_byte(text, shown_letter(cell))?;
    push_byte(text, b' ')
}

// Draws the cells of a row at the end, from its first square on.
fn push_cells(
    text: &mut String,
    board: &[Option<Piece>; Square::COUNT],
    square: usize,
) -> Result<(), AllocError>
    requires { square + 2 < 12 }
    ensures { OnOk result (string_bytes text.new ≡ string_bytes text.old ++ cells_drawing board.now square) }
{
    push_cell(text, board[square])?;
    push_cell(text, board[square + 1])?;
    push_cell(text, board[square + 2])
}

// Writes a space and the row's number at the end.
fn push_row_name(text: &mut String, row: usize) -> Result<(), AllocError>
    requires { row < 4 }
    ensures { OnOk result (string_bytes text.new ≡ string_bytes text.old ++ row_name row) }
{
    push_byte(text, b' ')?;
    push_byte(text, b'1' + row as u8)
}

// Draws a row below a border at the end.
fn push_row(
    text: &mut String,
    board: &[Option<Piece>; Square::COUNT],
    row: usize,
) -> Result<(), AllocError>
    requires { row < 4 }
    ensures { OnOk result (string_bytes text.new ≡ string_bytes text.old ++ row_drawing board.now row) }
{
    text.push_str(BORDER)?;
    push_row_name(text, row)?;
    text.push_str(" ")?;
    push_cells(text, board, 3 * row)?;
    text.push_str("|")?;
    push_row_name(text, row)?;
    push_byte(text, b'\n')
}

// Draws the rows at the end.
fn push_rows(text: &mut String, board: &[Option<Piece>; Square::COUNT]) -> Result<(), AllocError>
    ensures { OnOk result (string_bytes text.new ≡ string_bytes text.old ++ flat_map (row_drawing board.now) (3 ∷ 2 ∷ 1 ∷ 0 ∷ [])) }
{
    push_row(text, board, 3)?;
    push_row(text, board, 2)?;
    push_row(text, board, 1)?;
    push_row(text, board, 0)
}

// Draws the board at the end.
fn push_board(text: &mut String, board: &[Option<Piece>; Square::COUNT]) -> Result<(), AllocError>
    ensures { OnOk result (string_bytes text.new ≡ string_bytes text.old ++ board_drawing board.now) }
{
    text.push_str(COLUMNS)?;
    push_rows(text, board)?;
    text.push_str(BORDER)?;
    text.push_str(COLUMNS)
}

// Whose side is which.
fn side_line(side: Side) -> &'static str
    ensures { result.now ≡ side_words side }
{
    match side {
        Side::Mover => "The side to move: capital letters, going up the board.\n",
        Side::Enemy => "The other side: small letters, going down the board.\n",
    }
}

// Writes the letters of a hand at the end, or that it is empty.
fn push_held(text: &mut String, side: Side, hand: Hand) -> Result<(), AllocError>
    ensures { OnOk result (string_bytes text.new ≡ string_bytes text.old ++ or_nothing (hand_letters side hand)) }
{
    if hand.chicks == 0 && hand.elephants == 0 && hand.giraffes == 0 {
        text.push_str("nothing")
    } else {
        push_letters(text, side, hand)
    }
}

// Writes at the end whose side is which, and what lies in that hand.
fn push_side(text: &mut String, side: Side, hand: Hand) -> Result<(), AllocError>
    ensures { OnOk result (string_bytes text.new ≡ string_bytes text.old ++ side_drawing side hand) }
{
    text.push_str(side_line(side))?;
    text.push_str("In hand: ")?;
    push_held(text, side, hand)?;
    text.push_str("\n")
}

/// The position drawn for a reader who is new to the game, in ASCII: the other side's hand, the board from row 4 to row 1
/// with the names of rows and columns around it, the hand of the side to move, and what the letters are. It says which side
/// has which letters and which way it goes. Each line ends with a line feed.
///
/// # Errors
///
/// `Memory` if no memory is left for the text.
pub fn draw_position(alloc: Global, position: &Position) -> Result<String, Memory>
    ensures { IfOk result (λ text. string_bytes text ≡ drawing_of position.now.setup) }
{
    let setup = position.setup;
    let mut text = String::new(alloc);
    push_side(&mut text, Side::Enemy, setup.hands.enemy)?;
    text.push_str("\n")?;
    push_board(&mut text, &setup.board)?;
    text.push_str("\n")?;
    push_side(&mut text, Side::Mover, setup.hands.mover)?;
    text.push_str("\n")?;
    text.push_str(LETTERS)?;
    Ok(text)
}
