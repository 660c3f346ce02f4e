// The numbering of all positions of a piece set, those of profile A: their ranks, and where each stands among the runs of its block. On it stand the ranks
// (src/ranks.rt) and the classes of families.
ghost use Rattle.std.specs.Prelude.{◌≡◌, ◌<◌, ◌≤◌, ◌+◌, ◌*◌, ◌^◌, length};
ghost use Rattle.dob_pieces.specs.Boards.{IsBoardOf};
ghost use Rattle.dob_pieces.specs.Setups.{total};
ghost use Rattle.dob_pieces.specs.declared.setup.Setup.{Setup};
ghost use Rattle.dob_rank.specs.BoardDigits.{ArePartsOf, AreNumbersOf, IsShownOfSet};
ghost use Rattle.dob_rank.specs.Order.{IsPositionOfSet};
ghost use Rattle.dob_rank.specs.Numbers.{size_of_set, rank_of_set, product, number_of, block_bases, block_of};
ghost use Rattle.dob_rank.specs.Numbers.{HasBlock, bases_by, on_board as on_board_of, digits as all_digits_of, setup_by, hands_by, HasDigits, digits_of};
ghost use Rattle.dob_rank.specs.Runs.{runs_in, run_size, run_bases, square_bases, local_bases, run_of, local_of};

use crate::block::{self, DIGITS, PerKind};
use crate::layers::Layer;
use crate::runs::Spot;
use crate::starts::find_block;
use crate::{masks, placing, radix};
use dob_pieces::{Board, Family, Hand, HandKind, Hands, PieceSet, Position, Profile, Setup};

/// The position of the set that has that rank, which is below the set's size.
pub(crate) fn unrank_in_set(set: PieceSet, rank: u64) -> Position
    requires { rank < size_of_set set }
    ensures position { IsPositionOfSet set result.setup }
    ensures number { rank_of_set set result.setup ≡ rank }
{
    let profile = Profile::A;
    let (block, place) = find_block(Family { set, profile }, rank);
    let on_board = block::numbers_in(set, block);
    let choices = block::choices_in(&on_board);
    let spot = block::spot_at(set, &on_board, &choices, place);
    position_by(set, &on_board, &choices, spot)
}

/// The number of the block of a position of the set, and the position's spot there.
pub fn spot_of(set: PieceSet, position: &Position) -> (u64, Spot)
    requires { IsPositionOfSet set position.now.setup }
    ensures block { result.0 ≡ block_of set position.now.setup }
    ensures run { result.1.run ≡ run_of set position.now.setup }
    ensures local { result.1.local ≡ local_of position.now.setup }
{
    spot_by(set, &Board::of(&position.setup))
}

/// Block and spot of the position that the board shows.
pub fn spot_by(set: PieceSet, board: &Board) -> (u64, Spot)
    requires { (setup : Setup) × IsShownOfSet set setup board.now }
    ensures block { (setup : Setup) → IsShownOfSet set setup board.now → result.0 ≡ block_of set setup }
    ensures run { (setup : Setup) → IsShownOfSet set setup board.now → result.1.run ≡ run_of set setup }
    ensures local { (setup : Setup) → IsShownOfSet set setup board.now → result.1.local ≡ local_of setup }
{
    let on_board = numbers_in(board);
    let digits = digits_of(board, &on_board);
    spot_from(set, &on_board, &digits)
}

/// Block and spot by the position's numbers on the board and its digits.
pub fn spot_from(set: PieceSet, on_board: &PerKind, digits: &[u64; DIGITS]) -> (u64, Spot)
    requires { (setup : Setup) × AreNumbersOf set on_board.now digits.now setup }
    ensures block { (setup : Setup) → AreNumbersOf set on_board.now digits.now setup → result.0 ≡ block_of set setup }
    ensures run { (setup : Setup) → AreNumbersOf set on_board.now digits.now setup → result.1.run ≡ run_of set setup }
    ensures local { (setup : Setup) → AreNumbersOf set on_board.now digits.now setup → result.1.local ≡ local_of setup }
{
    let block = radix::number_of(&block::block_bases_of(set), on_board);
    (block, block::spot_from(set, on_board, digits))
}

/// The piece set of a position, by the numbers on its board.
pub(crate) fn piece_set_of(position: &Position, on_board: &PerKind) -> PieceSet
    requires { on_board.now ≡ on_board_of position.now.setup }
    ensures chicks { result.chicks ≡ total HandKind.Chick position.now.setup }
    ensures elephants { result.elephants ≡ total HandKind.Elephant position.now.setup }
    ensures giraffes { result.giraffes ≡ total HandKind.Giraffe position.now.setup }
{
    let mover = position.setup.hands.mover;
    let enemy = position.setup.hands.enemy;
    PieceSet {
        chicks: in_all(on_board[0], mover.chicks, enemy.chicks),
        elephants: in_all(on_board[1], mover.elephants, enemy.elephants),
        giraffes: in_all(on_board[2], mover.giraffes, enemy.giraffes),
    }
}

// How many pieces of a kind there are, on the board and in the hands.
fn in_all(on_board: u64, mover: u8, enemy: u8) -> u8
    requires { on_board + mover + enemy ≤ 2 }
    ensures value { result ≡ on_board + mover + enemy }
    ensures bound { result ≤ 2 }
{
    on_board as u8 + mover + enemy
}

/// The position of the set at that spot of the block of that number.
pub fn position_at(set: PieceSet, block: u64, spot: Spot) -> Position
    requires block { block < product (block_bases set) }
    requires run { spot.run < runs_in set block }
    requires local { spot.local < run_size set block }
    ensures { HasBlock set block (spot.run * run_size set block + spot.local) result.setup }
{
    let on_board = block::numbers_in(set, block);
    position_by(set, &on_board, &block::choices_in(&on_board), spot)
}

/// The position of the set at that spot of the block of those numbers on the board and choices of squares.
pub fn position_by(set: PieceSet, on_board: &PerKind, choices: &PerKind, spot: Spot) -> Position
    requires on_board { HasDigits (block_bases set) on_board.now }
    requires choices { choices.now ≡ square_bases on_board.now }
    requires run { spot.run < product (run_bases set on_board.now) }
    requires local { spot.local < product (local_bases on_board.now) }
    ensures { HasBlock set (number_of (block_bases set) on_board.now) (spot.run * product (local_bases on_board.now) + spot.local) result.setup }
{
    let digits = block::digits_in(set, on_board, choices, spot);
    Position::new(setup_of(set, on_board, &digits))
}

/// How many chicks, elephants and giraffes stand on the board.
pub fn numbers_in(board: &Board) -> PerKind
    ensures { (setup : Setup) → IsBoardOf setup board.now → length setup.board ≡ 12 → result ≡ on_board_of setup }
{
    [
        masks::count(u64::from(board.chicks)),
        masks::count(u64::from(board.elephants)),
        masks::count(u64::from(board.giraffes)),
    ]
}

/// The digits, in its block, of the position that the board shows, by the numbers on it. Within its callers, since a call of its own hands eleven digits back
/// by memory.
#[inline(always)]
pub fn digits_of(board: &Board, on_board: &PerKind) -> [u64; DIGITS]
    requires { (setup : Setup) × ArePartsOf board.now on_board.now setup }
    ensures { (setup : Setup) → ArePartsOf board.now on_board.now setup → result ≡ all_digits_of setup }
{
    let own_lion = u64::from(board.own_lion);
    let enemy_lion = u64::from(board.enemy_lion);
    let chicks = u64::from(board.chicks);
    let elephants = u64::from(board.elephants);
    let giraffes = u64::from(board.giraffes);
    let after_own_lion = masks::ALL - own_lion;
    let after_lions = after_own_lion - enemy_lion;
    let after_chicks = after_lions - chicks;
    let after_elephants = after_chicks - elephants;
    let empty = after_elephants - giraffes;
    let hand = board.hands.mover;
    [
        u64::from(hand.chicks),
        u64::from(hand.elephants),
        u64::from(hand.giraffes),
        masks::choice_of(own_lion, after_own_lion, 1),
        masks::choice_of(enemy_lion, after_lions, 1),
        masks::choice_of(chicks, after_chicks, on_board[0]),
        masks::choice_of(elephants, after_elephants, on_board[1]),
        masks::choice_of(giraffes, empty, on_board[2]),
        masks::forms_of(board, chicks, Layer::Chicks, on_board[0]),
        masks::forms_of(board, elephants, Layer::Elephants, on_board[1]),
        masks::forms_of(board, giraffes, Layer::Giraffes, on_board[2]),
    ]
}

/// The setup of those numbers on the board and those digits.
pub fn setup_of(set: PieceSet, on_board: &PerKind, digits: &[u64; DIGITS]) -> Setup
    requires on_board { HasDigits (block_bases set) on_board.now }
    requires digits { HasDigits (bases_by set on_board.now) digits.now }
    ensures { result ≡ setup_by set on_board.now digits.now }
{
    Setup {
        board: placing::board_by(on_board, digits),
        hands: hands_of(set, on_board, digits),
    }
}

/// The hands: the mover's has what the digits say, the enemy's all that is neither there nor on the board.
pub fn hands_of(set: PieceSet, on_board: &PerKind, digits: &[u64; DIGITS]) -> Hands
    requires on_board { HasDigits (block_bases set) on_board.now }
    requires digits { HasDigits (bases_by set on_board.now) digits.now }
    ensures { result ≡ hands_by set on_board.now digits.now }
{
    let mover = Hand {
        chicks: digits[0] as u8,
        elephants: digits[1] as u8,
        giraffes: digits[2] as u8,
    };
    let enemy = Hand {
        chicks: set.chicks - on_board[0] as u8 - mover.chicks,
        elephants: set.elephants - on_board[1] as u8 - mover.elephants,
        giraffes: set.giraffes - on_board[2] as u8 - mover.giraffes,
    };
    Hands { mover, enemy }
}
