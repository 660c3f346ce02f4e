// The rounds of a shuffle over the cells of a square.
ghost use Rattle.std.specs.Prelude.{◌≡◌, ◌<◌, ◌≤◌, ◌*◌, ◌^◌};
ghost use Rattle.dob_shuffle.specs.Shuffles.{back, cell_of, column_back, column_on, number_of, onward, round, round_back, row_back, row_on, word};

use rand_core::SeedableRng;
use rand_core::utils::NextWord;
use rand_xoshiro::SplitMix64;

/// A place on a square, counted from 0.
#[derive(Clone, Copy)]
pub struct Cell {
    pub row: u64,
    pub column: u64,
}

// The word of a number behind a key.
fn word(key: u64, number: u64) -> u64
    ensures { result ≡ word key number }
{
    SplitMix64::seed_from_u64(key.wrapping_add(number)).next_word()
}

// So many steps on along a line of `side`, going round.
fn onward(side: u64, steps: u64, number: u64) -> u64
    requires within { number < side }
    requires small { side < 2 ^ 32 }
    ensures value { result ≡ onward side steps number }
    ensures within { result < side }
{
    (number + steps % side) % side
}

// So many steps back along it.
fn back(side: u64, steps: u64, number: u64) -> u64
    requires within { number < side }
    requires small { side < 2 ^ 32 }
    ensures value { result ≡ back side steps number }
    ensures within { result < side }
{
    (number + (side - steps % side)) % side
}

pub(crate) fn round(side: u64, key: u64, cell: Cell) -> Cell
    requires row { cell.row < side }
    requires column { cell.column < side }
    requires small { side < 2 ^ 32 }
    ensures value { result ≡ round side key cell }
    ensures row { result.row < side }
    ensures column { result.column < side }
{
    let column = onward(side, word(key, cell.row), cell.column);
    let row = onward(side, word(key, side + column), cell.row);
    Cell { row, column }
}

/// One round undone.
pub(crate) fn round_back(side: u64, key: u64, cell: Cell) -> Cell
    requires row { cell.row < side }
    requires column { cell.column < side }
    requires small { side < 2 ^ 32 }
    ensures value { result ≡ round_back side key cell }
    ensures row { result.row < side }
    ensures column { result.column < side }
{
    let row = back(side, word(key, side + cell.column), cell.row);
    let column = back(side, word(key, row), cell.column);
    Cell { row, column }
}

/// The cell of a number that lies on the square of the side.
pub(crate) fn cell_of(side: u64, number: u64) -> Cell
    requires { number < side * side }
    ensures value { result ≡ cell_of side number }
    ensures row { result.row < side }
    ensures column { result.column < side }
{
    Cell {
        row: number / side,
        column: number % side,
    }
}

pub(crate) fn number_of(side: u64, cell: Cell) -> u64
    requires row { cell.row < side }
    requires column { cell.column < side }
    requires small { side < 2 ^ 32 }
    ensures value { result ≡ number_of side cell }
    ensures below { result < side * side }
{
    cell.row * side + cell.column
}
