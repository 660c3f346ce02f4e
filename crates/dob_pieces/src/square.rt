// The twelve squares of the board.
ghost use Rattle.std.specs.Prelude.{◌≡◌, ◌<◌, ◌+◌, ◌*◌};
ghost use Rattle.dob_pieces.specs.Squares.{column, row, turned_square, mirrored_square};

use std::marker::Model;

/// A square of the board, as its number: a1 is 0, b1 is 1, c1 is 2, a2 is 3, and so on to c4, which is 11.
#[derive(Clone, Copy, PartialEq, Eq)]
pub struct Square {
    index: u8,
}

impl Model for Square {
    ghost use Rattle.std.specs.Prelude.{ℕ, ◌<◌};

    ghost Value = { ℕ };

    ghost view = { λ s. s.index };

    ghost invariant = { λ s. s.index < 12 };

    ghost inverse = { λ n. record { index = n } };
}

impl Square {
    /// How many squares there are.
    pub const COUNT: usize = 12;

    // The number of a4, the first square of row 4.
    pub(crate) const FIRST_OF_FAR_ROW: usize = 9;

    /// The square of that number, which is below 12.
    pub fn new(index: usize) -> Square
        requires { index < 12 }
        ensures { result ≡ index }
    {
        Square { index: index as u8 }
    }

    /// The square's number, below 12.
    pub fn index(self) -> usize
        ensures value { result ≡ self }
        ensures bound { result < 12 }
    {
        self.index as usize
    }

    /// 0 for column a, 1 for b, 2 for c.
    pub fn column(self) -> usize
        ensures value { result ≡ column self }
        ensures bound { result < 3 }
    {
        self.index() % 3
    }

    /// 0 for row 1, the home row of the side to move, up to 3 for row 4, its far row.
    pub fn row(self) -> usize
        ensures value { result ≡ row self }
        ensures bound { result < 4 }
    {
        self.index() / 3
    }

    /// The square after a half turn of the board.
    pub fn turned(self) -> Square
        ensures { result ≡ turned_square self }
    {
        Square::new(11 - self.index())
    }

    /// The square after columns a and c are exchanged.
    pub fn mirrored(self) -> Square
        ensures { result ≡ mirrored_square self }
    {
        Square::new(3 * self.row() + (2 - self.column()))
    }
}
