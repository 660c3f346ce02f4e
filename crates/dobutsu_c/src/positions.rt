// Positions as numbers: what stands on each square and lies in each hand.
ghost use Rattle.std.specs.Prelude.{◌≡◌, ◌≢◌, MatchOption, MatchResult};
ghost use Rattle.dob_pieces.specs.declared.setup.Setup.{Setup as AnySetup};
ghost use Rattle.dobutsu_c.specs.Positions.{IsShownBoard, IsShown, HasNumbersFault, hand_numbers};

use dob_foreign::{DobutsuText, cell_number, cell_of, position_number, position_text, text_number};
use dob_pieces::{Hand, Hands, Piece, Position, PositionFault, Profile, Square};
use dob_text::read_position_bytes;

/// How many pieces of each kind lie in a hand.
#[repr(C)]
#[derive(Clone, Copy)]
pub struct DobutsuHand {
    pub chicks: u8,
    pub elephants: u8,
    pub giraffes: u8,
}

/// A position, seen from the side to move: what stands on each square from a1, b1, c1, a2 to c4, and both hands. A square's number is 0 if nothing stands
/// there, 1 to 5 for a chick, elephant, giraffe, hen or lion of the side to move, and 6 to 10 for one of the other side.
#[repr(C)]
#[derive(Clone, Copy)]
pub struct DobutsuPosition {
    pub board: [u8; 12],
    pub mover: DobutsuHand,
    pub enemy: DobutsuHand,
}

/// Why numbers are no position.
#[derive(Clone, Copy)]
pub(crate) enum NumbersFault {
    /// A number of the board stands for nothing.
    Cell,
    /// What stands on the board and lies in the hands is no position.
    Position(PositionFault),
}

impl NumbersFault {
    ghost use Rattle.dobutsu_c.specs.Positions.{numbers_fault};

    /// The fault's number.
    pub(crate) fn number(self) -> u32
        ensures number { result ≡ numbers_fault self }
        ensures positive { result ≢ 0 }
    {
        match self {
            NumbersFault::Cell => 2,
            NumbersFault::Position(fault) => position_number(fault),
        }
    }
}

/// The position as numbers.
pub(crate) fn shown_position(position: &Position) -> DobutsuPosition
    ensures { IsShown result position.now.setup }
{
    let mut board = [0; 12];
    for square in 0..Square::COUNT {
        board[square] = cell_number(position.setup.board[square]);
    }
    DobutsuPosition {
        board,
        mover: hand_numbers(position.setup.hands.mover),
        enemy: hand_numbers(position.setup.hands.enemy),
    }
}

fn hand_numbers(hand: Hand) -> DobutsuHand
    ensures { result ≡ hand_numbers hand }
{
    DobutsuHand {
        chicks: hand.chicks,
        elephants: hand.elephants,
        giraffes: hand.giraffes,
    }
}

fn hand_of(numbers: DobutsuHand) -> Hand
    ensures { hand_numbers result ≡ numbers }
{
    Hand {
        chicks: numbers.chicks,
        elephants: numbers.elephants,
        giraffes: numbers.giraffes,
    }
}

fn board_of(numbers: &[u8; 12]) -> Option<[Option<Piece>; Square::COUNT]>
    ensures { MatchOption result ((setup : AnySetup) → ¬ IsShownBoard numbers.now setup.board) (λ board. IsShownBoard numbers.now board) }
{
    let mut board = [None; Square::COUNT];
    for square in 0..Square::COUNT {
        let cell = cell_of(numbers[square])?;
        board[square] = cell;
    }
    Some(board)
}

/// The position of those numbers, or why they are none.
pub(crate) fn position_of(numbers: &DobutsuPosition) -> Result<Position, NumbersFault>
    ensures { MatchResult result (λ position. IsShown numbers.now position.setup) (HasNumbersFault numbers.now) }
{
    let Some(board) = board_of(&numbers.board) else {
        return Err(NumbersFault::Cell);
    };
    let hands = Hands {
        mover: hand_of(numbers.mover),
        enemy: hand_of(numbers.enemy),
    };
    match Position::of(board, hands) {
        Ok(position) => Ok(position),
        Err(fault) => Err(NumbersFault::Position(fault)),
    }
}
