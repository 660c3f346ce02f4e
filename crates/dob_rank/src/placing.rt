// Placing pieces: the squares that a choice takes of those that are left, and a board with a piece on each of them.
ghost use Rattle.std.specs.Prelude.{◌≡◌, ◌<◌, ◌≤◌, ◌+◌, ◌^◌, slice_index};
ghost use Rattle.dob_rank.specs.Numbers.{order, choose, board_of, numbers_by, layers_by};
ghost use Rattle.dob_rank.specs.Placing.{past, lower_of, higher_of, first_place, second_place, put, AreChoices, AreSquareChoices, ArePlaces};

use crate::block::{DIGITS, PerKind};
use crate::forms::{base_of, cell_of};
use crate::layers::Layer;
use crate::runs::FREE_SQUARES;
use dob_pieces::{Piece, Square};

// The place of a piece that isn't there, beyond all squares.
const NOWHERE: u64 = 12;

// How many choices there are of two of the squares that the lions leave.
const PAIRS: usize = 45;

// The two numbers of each choice of two, counted from the end, as distances from the last number.
const FIRST_FROM_END: [u8; PAIRS] = [
    1, 2, 2, 3, 3, 3, 4, 4, 4, 4, 5, 5, 5, 5, 5, 6, 6, 6, 6, 6, 6, 7, 7, 7, 7, 7, 7, 7, 8, 8, 8, 8,
    8, 8, 8, 8, 9, 9, 9, 9, 9, 9, 9, 9, 9,
];

const SECOND_FROM_END: [u8; PAIRS] = [
    0, 0, 1, 0, 1, 2, 0, 1, 2, 3, 0, 1, 2, 3, 4, 0, 1, 2, 3, 4, 5, 0, 1, 2, 3, 4, 5, 6, 0, 1, 2, 3,
    4, 5, 6, 7, 0, 1, 2, 3, 4, 5, 6, 7, 8,
];

/// The number-th of the squares other than one that is taken.
pub fn past(taken: u64, number: u64) -> u64
    requires { number ≤ 2 ^ 32 }
    ensures value { result ≡ past taken number }
    ensures bound { result ≤ number + 1 }
{
    if number < taken { number } else { number + 1 }
}

/// Two places among the squares other than two that are taken, the lower taken first.
pub fn among(taken: (u64, u64), places: (u64, u64)) -> (u64, u64)
    requires first { places.0 ≤ 2 ^ 30 }
    requires second { places.1 ≤ 2 ^ 30 }
    ensures first { result.0 ≡ past taken.1 (past taken.0 places.0) }
    ensures second { result.1 ≡ past taken.1 (past taken.0 places.1) }
    ensures first_bound { result.0 ≤ places.0 + 2 }
    ensures second_bound { result.1 ≤ places.1 + 2 }
{
    (
        past(taken.1, past(taken.0, places.0)),
        past(taken.1, past(taken.0, places.1)),
    )
}

/// The places of the pieces of each kind among the squares that the lions leave: of two the lower first, and beyond all places where
/// there is no piece.
#[derive(Clone, Copy)]
pub struct Places {
    pub chicks: (u8, u8),
    pub elephants: (u8, u8),
    pub giraffes: (u8, u8),
}

/// The places that those choices of squares take.
pub fn places_by(on_board: &PerKind, choices: &PerKind) -> Places
    requires { AreSquareChoices on_board.now choices.now }
    ensures { ArePlaces on_board.now (slice_index choices.now 0) (slice_index choices.now 1) (slice_index choices.now 2) result }
{
    let chicks = places_of(FREE_SQUARES, on_board[0], choices[0]);
    let elephants = places_of(FREE_SQUARES - on_board[0], on_board[1], choices[1]);
    let giraffes = places_of(
        FREE_SQUARES - on_board[0] - on_board[1],
        on_board[2],
        choices[2],
    );
    Places {
        chicks: narrow(chicks),
        elephants: narrow(among(chicks, elephants)),
        giraffes: narrow(among(chicks, among(elephants, giraffes))),
    }
}

// Two places as they are kept, and as numbers again.
fn narrow(places: (u64, u64)) -> (u8, u8)
    requires first { places.0 ≤ 255 }
    requires second { places.1 ≤ 255 }
    ensures first { result.0 ≡ places.0 }
    ensures second { result.1 ≡ places.1 }
{
    (places.0 as u8, places.1 as u8)
}

pub fn wide(places: (u8, u8)) -> (u64, u64)
    ensures first { result.0 ≡ places.0 }
    ensures second { result.1 ≡ places.1 }
    ensures first_bound { result.0 ≤ 255 }
    ensures second_bound { result.1 ≤ 255 }
{
    (u64::from(places.0), u64::from(places.1))
}

/// The board of those numbers on the board and those digits.
pub(crate) fn board_by(on_board: &PerKind, digits: &[u64; DIGITS]) -> [Option<Piece>; Square::COUNT]
    requires { AreChoices on_board.now digits.now }
    ensures { result ≡ board_of (numbers_by digits.now) (layers_by on_board.now digits.now) }
{
    let places = places_by(on_board, &[digits[5], digits[6], digits[7]]);
    let own = digits[3];
    let enemy = digits[4];
    let lions = (enemy, own);
    let mut board = [None; Square::COUNT];
    board[own as usize] = cell_of(Layer::OwnLion, 0);
    board[past(own, enemy) as usize] = cell_of(Layer::EnemyLion, 0);
    let chick_squares = among(lions, wide(places.chicks));
    put(
        &mut board,
        Layer::Chicks,
        on_board[0],
        chick_squares,
        digits[8],
    );
    let elephant_squares = among(lions, wide(places.elephants));
    put(
        &mut board,
        Layer::Elephants,
        on_board[1],
        elephant_squares,
        digits[9],
    );
    let giraffe_squares = among(lions, wide(places.giraffes));
    put(
        &mut board,
        Layer::Giraffes,
        on_board[2],
        giraffe_squares,
        digits[10],
    );
    board
}

/// The places among `squares` squares that a choice of at most two takes, the lower first.
pub(crate) fn places_of(squares: u64, pieces: u64, number: u64) -> (u64, u64)
    requires few { pieces ≤ 2 }
    requires squares { squares ≤ FREE_SQUARES }
    requires number { number < choose squares pieces }
    ensures first { result.0 ≡ first_place squares pieces number }
    ensures second { result.1 ≡ second_place squares pieces number }
    ensures first_bound { result.0 ≤ NOWHERE }
    ensures second_bound { result.1 ≤ NOWHERE }
{
    match pieces {
        0 => (NOWHERE, NOWHERE),
        1 => (number, NOWHERE),
        _ => pair_of(squares, number),
    }
}

// The places among `squares` squares that a choice of two takes, the lower first.
fn pair_of(squares: u64, number: u64) -> (u64, u64)
    requires squares { squares ≤ FREE_SQUARES }
    requires number { number < choose squares 2 }
    ensures lower { result.0 ≡ lower_of squares number }
    ensures higher { result.1 ≡ higher_of squares number }
    ensures lower_bound { result.0 ≤ NOWHERE }
    ensures higher_bound { result.1 ≤ NOWHERE }
{
    let last = squares - 1;
    let from_end = (squares * last / 2 - 1 - number) as usize;
    (
        last - u64::from(FIRST_FROM_END[from_end]),
        last - u64::from(SECOND_FROM_END[from_end]),
    )
}

/// Puts as many pieces of a layer, at most two, on those squares; the number's digits are their forms.
pub(crate) fn put(
    board: &mut [Option<Piece>; Square::COUNT],
    layer: Layer,
    pieces: u64,
    squares: (u64, u64),
    number: u64,
)
    requires few { pieces ≤ 2 }
    requires first { 0 < pieces → squares.0 < 12 }
    requires second { 1 < pieces → squares.1 < 12 }
    ensures { board.new ≡ put (order layer) pieces squares.0 squares.1 number board.old }
{
    let base = base_of(layer);
    match pieces {
        0 => {}
        1 => board[squares.0 as usize] = cell_of(layer, number % base),
        _ => {
            board[squares.1 as usize] = cell_of(layer, number % base);
            board[squares.0 as usize] = cell_of(layer, number / base % base);
        }
    }
}
