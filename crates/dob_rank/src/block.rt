// The blocks of a piece set: the positions with the same numbers of chicks, elephants and giraffes on the board.
// The blocks stand in the order of those numbers.
ghost use Rattle.std.specs.Prelude.{◌≡◌, ◌<◌, ◌≤◌, ◌+◌, ◌*◌, ◌/◌, ◌^◌, slice_index};
ghost use Rattle.dob_rank.specs.Numbers.{choose, product, HasDigits, number_of, digits_of, sum_below, bases_by, block_bases, block_size, size_of_set};
ghost use Rattle.dob_rank.specs.Runs.{runs_in, run_size, run_bases, square_bases, form_bases, local_bases, run_number, local_number, run_digits, AreFewOnBoard};

use crate::radix;
use crate::runs::{ENEMY_SQUARES, FREE_SQUARES, LIONS, OWN_SQUARES, RunDigits, Spot};
use dob_lists::{join_by_power, split_by_power};
use dob_pieces::{Hand, PieceSet};

/// One number for each kind of piece: chicks (hens counted with them), elephants, giraffes.
pub type PerKind = [u64; 3];

/// How many digits give the place in a block: 0 to 2 are the numbers in hand, 3 to 7 the choices of squares of five
/// layers, and 8 to 10 the forms of three kinds.
pub const DIGITS: usize = 11;

/// The bases of the numbers on the board.
pub fn block_bases_of(set: PieceSet) -> PerKind
    ensures { result ≡ block_bases set }
{
    [
        u64::from(set.chicks) + 1,
        u64::from(set.elephants) + 1,
        u64::from(set.giraffes) + 1,
    ]
}

/// How many blocks the set has.
pub fn blocks(set: PieceSet) -> u64
    ensures value { result ≡ product (block_bases set) }
    ensures bound { result ≤ 27 }
{
    radix::product(&block_bases_of(set))
}

/// The numbers on the board in the block of that number.
pub fn numbers_in(set: PieceSet, block: u64) -> PerKind
    requires { block < product (block_bases set) }
    ensures { result ≡ digits_of (block_bases set) block }
{
    radix::three_digits(&block_bases_of(set), block)
}

/// The bases of the digits in the block of those numbers on the board.
pub(crate) fn bases_in(set: PieceSet, on_board: &PerKind) -> [u64; DIGITS]
    requires chicks { slice_index on_board.now 0 ≤ set.chicks }
    requires elephants { slice_index on_board.now 1 ≤ set.elephants }
    requires giraffes { slice_index on_board.now 2 ≤ set.giraffes }
    ensures { result ≡ bases_by set on_board.now }
{
    let chicks = on_board[0];
    let elephants = on_board[1];
    let giraffes = on_board[2];
    [
        u64::from(set.chicks) - chicks + 1,
        u64::from(set.elephants) - elephants + 1,
        u64::from(set.giraffes) - giraffes + 1,
        OWN_SQUARES,
        ENEMY_SQUARES,
        choose(FREE_SQUARES, chicks),
        choose(FREE_SQUARES - chicks, elephants),
        choose(FREE_SQUARES - chicks - elephants, giraffes),
        power(4, chicks),
        power(2, elephants),
        power(2, giraffes),
    ]
}

/// In how many ways the squares of each kind are chosen, for those numbers on the board.
pub fn choices_in(on_board: &PerKind) -> PerKind
    requires { AreFewOnBoard on_board.now }
    ensures { result ≡ square_bases on_board.now }
{
    let chicks = on_board[0];
    let elephants = on_board[1];
    let giraffes = on_board[2];
    [
        choose(FREE_SQUARES, chicks),
        choose(FREE_SQUARES - chicks, elephants),
        choose(FREE_SQUARES - chicks - elephants, giraffes),
    ]
}

/// The bases of the places in a run of that block.
pub fn local_bases_in(set: PieceSet, block: u64) -> [u64; 6]
    requires { block < product (block_bases set) }
    ensures { result ≡ local_bases (digits_of (block_bases set) block) }
{
    let on_board = numbers_in(set, block);
    let choices = choices_in(&on_board);
    [
        choices[0],
        choices[1],
        choices[2],
        power(4, on_board[0]),
        power(2, on_board[1]),
        power(2, on_board[2]),
    ]
}

/// The digits of a spot in the block of those numbers on the board and choices of squares.
pub(crate) fn digits_in(
    set: PieceSet,
    on_board: &PerKind,
    choices: &PerKind,
    spot: Spot,
) -> [u64; DIGITS]
    requires on_board { HasDigits (block_bases set) on_board.now }
    requires choices { choices.now ≡ square_bases on_board.now }
    requires run { spot.run < product (run_bases set on_board.now) }
    requires local { spot.local < product (local_bases on_board.now) }
    ensures { result ≡ digits_of (bases_by set on_board.now) (spot.run * product (local_bases on_board.now) + spot.local) }
{
    digits_with(
        set,
        on_board,
        choices,
        run_digits_in(set, on_board, spot.run),
        spot,
    )
}

/// The digits of a run of those numbers on the board.
pub fn run_digits_in(set: PieceSet, on_board: &PerKind, run: u64) -> RunDigits
    requires on_board { HasDigits (block_bases set) on_board.now }
    requires run { run < product (run_bases set on_board.now) }
    ensures { run_digits result ≡ digits_of (run_bases set on_board.now) run }
{
    let bases = bases_in(set, on_board);
    let hands = radix::three_digits(&[bases[0], bases[1], bases[2]], run / LIONS);
    let lions = run % LIONS;
    RunDigits {
        hand: Hand {
            chicks: hands[0] as u8,
            elephants: hands[1] as u8,
            giraffes: hands[2] as u8,
        },
        own: (lions / ENEMY_SQUARES) as u8,
        enemy: (lions % ENEMY_SQUARES) as u8,
    }
}

/// The digits of a spot in the block of those numbers on the board and choices of squares, by those of its run. Inlined, so
/// that digits that nobody reads are not found.
#[inline(always)]
pub fn digits_with(
    set: PieceSet,
    on_board: &PerKind,
    choices: &PerKind,
    run: RunDigits,
    spot: Spot,
) -> [u64; DIGITS]
    requires on_board { HasDigits (block_bases set) on_board.now }
    requires choices { choices.now ≡ square_bases on_board.now }
    requires digits { run_digits run ≡ digits_of (run_bases set on_board.now) spot.run }
    requires run { spot.run < product (run_bases set on_board.now) }
    requires local { spot.local < product (local_bases on_board.now) }
    ensures { result ≡ digits_of (bases_by set on_board.now) (spot.run * product (local_bases on_board.now) + spot.local) }
{
    let (square, form) = split_by_power(spot.local, form_bits(on_board));
    let squares = radix::three_digits(choices, square);
    let forms = form_digits(on_board, form);
    [
        u64::from(run.hand.chicks),
        u64::from(run.hand.elephants),
        u64::from(run.hand.giraffes),
        u64::from(run.own),
        u64::from(run.enemy),
        squares[0],
        squares[1],
        squares[2],
        forms[0],
        forms[1],
        forms[2],
    ]
}

/// The number of the choice of all squares at a place of a run of those numbers on the board.
#[tactic(auto, using(crate::proofs::InRuns::DigitParts::quotient_is))]
pub fn squares_at(on_board: &PerKind, local: u64) -> u64
    requires { AreFewOnBoard on_board.now }
    ensures { result ≡ local / product (form_bases on_board.now) }
{
    split_by_power(local, form_bits(on_board)).0
}

/// The spot that those digits write in the block of those numbers on the board.
pub fn spot_from(set: PieceSet, on_board: &PerKind, digits: &[u64; DIGITS]) -> Spot
    requires on_board { HasDigits (block_bases set) on_board.now }
    requires digits { HasDigits (bases_by set on_board.now) digits.now }
    ensures run { result.run ≡ run_number set on_board.now digits.now }
    ensures local { result.local ≡ local_number on_board.now digits.now }
{
    let bases = bases_in(set, on_board);
    let hands = radix::number_of(
        &[bases[0], bases[1], bases[2]],
        &[digits[0], digits[1], digits[2]],
    );
    let lions = digits[3] * ENEMY_SQUARES + digits[4];
    let squares = radix::number_of(
        &[bases[5], bases[6], bases[7]],
        &[digits[5], digits[6], digits[7]],
    );
    let forms = form_number(on_board, &[digits[8], digits[9], digits[10]]);
    let run = hands * LIONS + lions;
    let local = join_by_power(squares, forms, form_bits(on_board));
    Spot { run, local }
}

/// The place in the block of those numbers on the board at which a spot is.
pub(crate) fn place_of(on_board: &PerKind, spot: Spot) -> u64
    requires few { AreFewOnBoard on_board.now }
    requires run { spot.run < 2 ^ 12 }
    requires local { spot.local < product (local_bases on_board.now) }
    ensures { result ≡ spot.run * product (local_bases on_board.now) + spot.local }
{
    spot.run * size_of_runs(on_board, &choices_in(on_board)) + spot.local
}

/// The spot that is at a place in the block of those numbers on the board and choices of squares.
pub(crate) fn spot_at(set: PieceSet, on_board: &PerKind, choices: &PerKind, place: u64) -> Spot
    requires on_board { HasDigits (block_bases set) on_board.now }
    requires choices { choices.now ≡ square_bases on_board.now }
    requires place { place < product (bases_by set on_board.now) }
    ensures run { result.run < product (run_bases set on_board.now) }
    ensures local { result.local < product (local_bases on_board.now) }
    ensures place { result.run * product (local_bases on_board.now) + result.local ≡ place }
{
    let size = size_of_runs(on_board, choices);
    Spot {
        run: place / size,
        local: place % size,
    }
}

// How many positions each run of those numbers on the board and choices of squares has.
fn size_of_runs(on_board: &PerKind, choices: &PerKind) -> u64
    requires few { AreFewOnBoard on_board.now }
    requires choices { choices.now ≡ square_bases on_board.now }
    ensures value { result ≡ product (local_bases on_board.now) }
    ensures bound { result ≤ 2 ^ 25 }
{
    choices[0] * (choices[1] * (choices[2] * forms_in(on_board)))
}

// How many forms the pieces of those numbers on the board have.
#[tactic(auto, using(std::proofs::lemmas::Nat::one_shl))]
fn forms_in(on_board: &PerKind) -> u64
    requires { AreFewOnBoard on_board.now }
    ensures { result ≡ product (form_bases on_board.now) }
{
    1 << form_bits(on_board)
}

// How many bits hold the forms of the pieces of those numbers on the board.
#[tactic(auto, using(crate::proofs::InRuns::DigitParts::form_bits_are))]
fn form_bits(on_board: &PerKind) -> u64
    requires { AreFewOnBoard on_board.now }
    ensures value { 2 ^ result ≡ product (form_bases on_board.now) }
    ensures bound { result ≤ 8 }
{
    2 * on_board[0] + on_board[1] + on_board[2]
}

// The digits of the forms for those numbers on the board.
#[tactic(auto, using(crate::proofs::InRuns::DigitParts::form_digits_are))]
fn form_digits(on_board: &PerKind, number: u64) -> PerKind
    requires few { AreFewOnBoard on_board.now }
    requires number { number < product (form_bases on_board.now) }
    ensures { result ≡ digits_of (form_bases on_board.now) number }
{
    let (rest, giraffes) = split_by_power(number, on_board[2]);
    let (chicks, elephants) = split_by_power(rest, on_board[1]);
    [chicks, elephants, giraffes]
}

// The number whose digits are those forms.
fn form_number(on_board: &PerKind, forms: &PerKind) -> u64
    requires few { AreFewOnBoard on_board.now }
    requires forms { HasDigits (form_bases on_board.now) forms.now }
    ensures value { result ≡ number_of (form_bases on_board.now) forms.now }
    ensures bound { result < 256 }
{
    let elephants = join_by_power(forms[0], forms[1], on_board[1]);
    join_by_power(elephants, forms[2], on_board[2])
}

/// In how many ways at most two squares are chosen from `squares`.
#[tactic(auto, using(crate::proofs::Positions::Loops::choose_at_one, crate::proofs::Positions::Loops::choose_at_two))]
pub(crate) fn choose(squares: u64, pieces: u64) -> u64
    requires few { pieces ≤ 2 }
    requires small { squares ≤ 12 }
    ensures { result ≡ choose squares pieces }
{
    match pieces {
        0 => 1,
        1 => squares,
        _ => squares * squares.saturating_sub(1) / 2,
    }
}

/// The power of a small base, for an exponent of at most 2.
pub fn power(base: u64, exponent: u64) -> u64
    requires small { base ≤ 4 }
    requires few { exponent ≤ 2 }
    ensures { result ≡ base ^ exponent }
{
    match exponent {
        0 => 1,
        1 => base,
        _ => base * base,
    }
}

/// How many runs the block of that number has: one for the mover's hand and the lions' squares each.
pub fn count_runs(set: PieceSet, block: u64) -> u64
    requires { block < product (block_bases set) }
    ensures value { result ≡ runs_in set block }
    ensures bound { result ≤ 2 ^ 12 }
{
    let on_board = numbers_in(set, block);
    let [chicks, elephants, giraffes, own, enemy, ..] = bases_in(set, &on_board);
    chicks * (elephants * (giraffes * (own * enemy)))
}

/// How many positions a run of the block of that number has.
pub fn run_size_in(set: PieceSet, block: u64) -> u64
    requires { block < product (block_bases set) }
    ensures value { result ≡ run_size set block }
    ensures positive { 0 < result }
    ensures bound { result ≤ 2 ^ 36 }
{
    let on_board = numbers_in(set, block);
    size_of_runs(&on_board, &choices_in(&on_board))
}
