// Reading the board.
ghost use Rattle.std.specs.Prelude.{◌≡◌, ◌<◌, ℕ, length, MatchOption};
ghost use Rattle.dob_text.specs.Letters.{letter_of};
ghost use Rattle.dob_text.specs.PositionText.{IsBoardLetter, IsGrid, HasLetters, board_text};
ghost use Rattle.dob_text.specs.Readings.{letter_place};

use dob_pieces::{Kind, Piece, Side, Square};

// What a letter of the board stands for.
fn cell_of(letter: u8) -> Option<Option<Piece>>
    ensures { MatchOption result (¬ IsBoardLetter letter) (λ cell. letter ≡ letter_of cell) }
{
    let (side, kind) = match letter {
        b'.' => return Some(None),
        b'L' => (Side::Mover, Kind::Lion),
        b'G' => (Side::Mover, Kind::Giraffe),
        b'E' => (Side::Mover, Kind::Elephant),
        b'C' => (Side::Mover, Kind::Chick),
        b'H' => (Side::Mover, Kind::Hen),
        b'l' => (Side::Enemy, Kind::Lion),
        b'g' => (Side::Enemy, Kind::Giraffe),
        b'e' => (Side::Enemy, Kind::Elephant),
        b'c' => (Side::Enemy, Kind::Chick),
        b'h' => (Side::Enemy, Kind::Hen),
        _ => return None,
    };
    Some(Some(Piece { side, kind }))
}

// Where the square's letter stands in the text.
fn place_of(square: usize) -> usize
    requires { square < 12 }
    ensures value { result ≡ letter_place square }
    ensures bound { result < 15 }
{
    4 * (3 - square / 3) + square % 3
}

/// The board of these fifteen bytes, if each letter is that of a square.
pub(crate) fn board_of(grid: &[u8]) -> Option<[Option<Piece>; Square::COUNT]>
    requires { IsGrid grid.now }
    ensures { MatchOption result
        (¬ HasLetters grid.now)
        (λ board. (length board ≡ 12) × (grid.now ≡ board_text board)) }
{
    let mut board = [None; Square::COUNT];
    for square in 0..Square::COUNT {
        let cell = cell_of(grid[place_of(square)])?;
        board[square] = cell;
    }
    Some(board)
}
