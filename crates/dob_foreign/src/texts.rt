// A text in a room of its own, since no memory is taken, and a position's.
ghost use Rattle.std.specs.Prelude.{◌≡◌, ◌<◌, ◌≤◌, ◌+◌, ◌++◌, replicate};
ghost use Rattle.arrayvec.specs.ArrayVec.{array_vec_len};
ghost use Rattle.dob_text.specs.PositionText.{row_text, board_text, hand_text, text_of};
ghost use Rattle.dob_foreign.specs.Texts.{IsText, AreFew};

use arrayvec::ArrayVec;
use dob_pieces::{Hand, Kind, Piece, Position, Side, Square};
use dob_text::{cell_letter, piece_letter};

/// A text: the first `length` of these bytes.
#[repr(C)]
#[derive(Clone, Copy)]
pub struct DobutsuText {
    pub length: u32,
    pub bytes: [u8; 32],
}

/// The letters as a text.
pub fn written(letters: &ArrayVec<u8, 32>) -> DobutsuText
    ensures { IsText result letters.now.items }
{
    let mut bytes = [0; 32];
    let count = letters.len();
    bytes[..count].copy_from_slice(letters.as_slice());
    DobutsuText {
        length: count as u32,
        bytes,
    }
}

/// The text of a position.
pub fn position_text(position: &Position) -> DobutsuText
    ensures { IsText result (text_of position.now.setup) }
{
    let mut letters = ArrayVec::new();
    push_board(&mut letters, &position.setup.board);
    letters.push(b' ');
    push_hand(&mut letters, Side::Mover, position.setup.hands.mover);
    letters.push(b' ');
    push_hand(&mut letters, Side::Enemy, position.setup.hands.enemy);
    written(&letters)
}

// Writes the rows at the end, row 4 first.
fn push_board(letters: &mut ArrayVec<u8, 32>, board: &[Option<Piece>; Square::COUNT])
    requires { array_vec_len letters.old + 15 ≤ 32 }
    ensures items { letters.new.items ≡ letters.old.items ++ board_text board.now }
    ensures size { array_vec_len letters.new ≡ array_vec_len letters.old + 15 }
{
    push_row(letters, board, 9);
    letters.push(b'/');
    push_row(letters, board, 6);
    letters.push(b'/');
    push_row(letters, board, 3);
    letters.push(b'/');
    push_row(letters, board, 0);
}

// Writes the letters of a row at the end, from its first square on.
fn push_row(letters: &mut ArrayVec<u8, 32>, board: &[Option<Piece>; Square::COUNT], square: usize)
    requires square { square + 2 < 12 }
    requires room { array_vec_len letters.old + 3 ≤ 32 }
    ensures items { letters.new.items ≡ letters.old.items ++ row_text board.now square }
    ensures size { array_vec_len letters.new ≡ array_vec_len letters.old + 3 }
{
    letters.push(cell_letter(board[square]));
    letters.push(cell_letter(board[square + 1]));
    letters.push(cell_letter(board[square + 2]));
}

// Writes a hand at the end, a dash for an empty one.
fn push_hand(letters: &mut ArrayVec<u8, 32>, side: Side, hand: Hand)
    requires few { AreFew hand }
    requires room { array_vec_len letters.old + 6 ≤ 32 }
    ensures items { letters.new.items ≡ letters.old.items ++ hand_text side hand }
    ensures size { array_vec_len letters.new ≤ array_vec_len letters.old + 6 }
{
    if hand.chicks == 0 && hand.elephants == 0 && hand.giraffes == 0 {
        letters.push(b'-');
    } else {
        push_times(letters, piece_letter(side, Kind::Chick), hand.chicks);
        push_times(letters, piece_letter(side, Kind::Elephant), hand.elephants);
        push_times(letters, piece_letter(side, Kind::Giraffe), hand.giraffes);
    }
}

// Writes a letter that many times at the end.
fn push_times(letters: &mut ArrayVec<u8, 32>, letter: u8, count: u8)
    requires { array_vec_len letters.old + count ≤ 32 }
    ensures items { letters.new.items ≡ letters.old.items ++ replicate count letter }
    ensures size { array_vec_len letters.new ≡ array_vec_len letters.old + count }
{
    for _i in 0..count {
        letters.push(letter);
    }
}
