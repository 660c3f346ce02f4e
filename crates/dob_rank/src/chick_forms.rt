// The forms of chicks by rules B: a chick doesn't stand on its side's far row, so a chick or hen has three forms on the squares of rows 1 and 4 and four on the
// others. Each choice of squares counts as often as the pieces on it have forms; what stands before a choice is counted by the bits of a set.
ghost use Rattle.std.specs.Prelude.{◌≡◌, true, ◌<◌, ◌≤◌, ◌+◌, ◌*◌, ◌^◌, ℕ};
ghost use Rattle.dob_pieces.specs.declared.profile.Profile.TheVariants.{B};
ghost use Rattle.dob_rank.specs.Numbers.{choose};
ghost use Rattle.dob_rank.specs.Marks.{marks_below};
ghost use Rattle.dob_rank.specs.Weights.{may_have, choice_weight, forms_before, forms_in, forms_stand, forms_upto, hand_size, left_square, lions_before};
ghost use Rattle.dob_rank.specs.Weights.{pairs_before, stands};

use crate::block::power;
use crate::placing::{among, past, places_of};
use crate::runs::{ENEMY_SQUARES, FREE_SQUARES, LIONS};

// The squares of rows 1 and 4, where a chick or hen has three forms, by their bits.
const FAR_ROWS: u64 = 0b111_000_000_111;

/// A choice of squares for at most two chicks where two lions stand.
#[derive(Clone, Copy)]
pub struct Choice {
    /// How many choices with forms stand before it.
    pub before: u64,
    /// How many forms it has.
    pub forms: u64,
    /// Its squares, the lower first.
    pub squares: (u64, u64),
}

/// The choice of that number.
#[inline(always)]
pub fn choice_of(chicks: u64, lions: u64, number: u64) -> Choice
    requires chicks { chicks ≤ 2 }
    requires lions { lions < LIONS }
    requires number { number < choose FREE_SQUARES chicks }
    ensures before { result.before ≡ forms_before B lions chicks number }
    ensures few { result.before ≤ 1760 }
    ensures forms { result.forms ≡ choice_weight B lions chicks number }
    ensures few_forms { result.forms ≤ 20 }
    ensures squares { (n : ℕ) → stands B lions chicks number n ≡ forms_stand chicks result.squares.0 result.squares.1 n }
{
    let places = places_of(FREE_SQUARES, chicks, number);
    let squares = among((lions % ENEMY_SQUARES, lions / ENEMY_SQUARES), places);
    Choice {
        before: before_choice(chicks, lions, number),
        forms: number_of_forms(chicks, squares, power(4, chicks)),
        squares,
    }
}

// How many choices with forms stand before the one of that number.
#[inline(always)]
fn before_choice(chicks: u64, lions: u64, number: u64) -> u64
    requires chicks { chicks ≤ 2 }
    requires lions { lions < LIONS }
    requires number { number < choose FREE_SQUARES chicks }
    ensures value { result ≡ forms_before B lions chicks number }
    ensures bound { result ≤ 1760 }
{
    match chicks {
        0 => 0,
        1 => forms_upto(lions, number),
        _ => before_pair(lions, number),
    }
}

// The same of two squares: those with an earlier first square, and those with its first one and an earlier second one.
#[inline(always)]
fn before_pair(lions: u64, number: u64) -> u64
    requires lions { lions < LIONS }
    requires number { number < choose FREE_SQUARES 2 }
    ensures value { result ≡ forms_before B lions 2 number }
    ensures bound { result ≤ 1760 }
{
    let (first, second) = places_of(FREE_SQUARES, 2, number);
    let seen = forms_upto(lions, first + 1);
    let own = forms_below(left_square(lions, first), 4);
    pairs_before(lions, first) + own * (forms_upto(lions, second) - seen)
}

// How many forms chicks have in all on the squares before the one of that number.
#[inline(always)]
fn forms_upto(lions: u64, number: u64) -> u64
    requires lions { lions < LIONS }
    requires number { number ≤ FREE_SQUARES }
    ensures value { result ≡ forms_upto lions number }
    ensures bound { result ≤ 40 }
{
    let own = lions / ENEMY_SQUARES;
    let enemy = past(own, lions % ENEMY_SQUARES);
    let left = FAR_ROWS & !(1 << own) & !(1 << enemy);
    let below = (1 << left_square(lions, number)) - 1;
    4 * number - u64::from((left & below).count_ones())
}

// The square of that number of those that two lions leave, beyond the last one 12.
#[inline(always)]
fn left_square(lions: u64, number: u64) -> u64
    requires lions { lions < LIONS }
    requires number { number ≤ FREE_SQUARES }
    ensures value { result ≡ left_square lions number }
    ensures bound { result ≤ 12 }
{
    past(lions / ENEMY_SQUARES, past(lions % ENEMY_SQUARES, number))
}

// How many forms two chicks have in all whose first square is before the one of that number.
#[inline(always)]
fn pairs_before(lions: u64, number: u64) -> u64
    requires lions { lions < LIONS }
    requires number { number ≤ FREE_SQUARES }
    ensures value { result ≡ pairs_before lions number }
    ensures bound { result ≤ 1600 }
{
    let seen = forms_upto(lions, number);
    let all = forms_upto(lions, FREE_SQUARES);
    seen * all - (seen * (seen + 7) - 12 * number) / 2
}

/// How many choices with forms a run of those lions has.
pub fn forms_in(chicks: u64, lions: u64) -> u64
    requires chicks { chicks ≤ 2 }
    requires lions { lions < LIONS }
    ensures value { result ≡ forms_in B chicks lions }
    ensures bound { result ≤ 1600 }
{
    match chicks {
        0 => 1,
        1 => forms_upto(lions, FREE_SQUARES),
        _ => pairs_before(lions, FREE_SQUARES),
    }
}

/// How many the runs of one hand have before that of those lions.
pub(crate) fn before_lions(chicks: u64, lions: u64) -> u64
    requires chicks { chicks ≤ 2 }
    requires lions { lions ≤ LIONS }
    ensures value { result ≡ lions_before B chicks lions }
    ensures bound { result ≤ 1600 * lions }
{
    let mut before = 0;
    for earlier in 0..lions {
        before += forms_in(chicks, earlier);
    }
    before
}

/// How many all runs of one hand have.
pub(crate) fn hand_size(chicks: u64) -> u64
    requires { chicks ≤ 2 }
    ensures value { result ≡ hand_size B chicks }
    ensures positive { 0 < result }
    ensures bound { result ≤ 54_000 }
{
    match chicks {
        0 => 99,
        1 => 3450,
        _ => 54_000,
    }
}

/// The lions in whose run the choice with forms of that number is, of those in the runs of one hand.
pub(crate) fn lions_at(chicks: u64, number: u64) -> u64
    requires chicks { chicks ≤ 2 }
    requires number { number < hand_size B chicks }
    ensures lions { result < LIONS }
    ensures low { lions_before B chicks result ≤ number }
    ensures high { number < lions_before B chicks (result + 1) }
{
    let mut low = 0;
    let mut high = LIONS;
    while 1 < high - low {
        let middle = low + (high - low) / 2;
        if before_lions(chicks, middle) <= number {
            low = middle;
        } else {
            high = middle;
        }
    }
    low
}

/// The choice of the chicks' squares in whose forms the one of that number is, where those lions stand.
pub fn choice_at(chicks: u64, lions: u64, number: u64) -> u64
    requires chicks { chicks ≤ 2 }
    requires lions { lions < LIONS }
    requires number { number < forms_in B chicks lions }
    ensures choice { result < choose FREE_SQUARES chicks }
    ensures low { forms_before B lions chicks result ≤ number }
    ensures high { number < forms_before B lions chicks (result + 1) }
{
    match chicks {
        0 => 0,
        1 => square_at(lions, number),
        _ => pair_at(lions, number),
    }
}

// The number of the square in whose forms, of one chick, the one of that number is.
fn square_at(lions: u64, number: u64) -> u64
    requires lions { lions < LIONS }
    requires number { number < forms_upto lions FREE_SQUARES }
    ensures square { result < FREE_SQUARES }
    ensures low { forms_upto lions result ≤ number }
    ensures high { number < forms_upto lions (result + 1) }
{
    let mut seen = 0;
    for square in 0..FREE_SQUARES {
        let next = seen + forms_below(left_square(lions, square), 4);
        if number < next {
            return square;
        }
        seen = next;
    }
    0
}

// The same of two squares: from first square to first square while no more forms stand before, then the second one.
fn pair_at(lions: u64, number: u64) -> u64
    requires lions { lions < LIONS }
    requires number { number < pairs_before lions FREE_SQUARES }
    ensures choice { result < choose FREE_SQUARES 2 }
    ensures low { forms_before B lions 2 result ≤ number }
    ensures high { number < forms_before B lions 2 (result + 1) }
{
    let all = forms_upto(lions, FREE_SQUARES);
    let mut seen = 0;
    let mut before = 0;
    for first in 0..FREE_SQUARES {
        let own = forms_below(left_square(lions, first), 4);
        let upto = seen + own;
        let next = before + own * (all - upto);
        if number < next {
            let second = square_at(lions, upto + (number - before) / own);
            return first * (2 * FREE_SQUARES - 1 - first) / 2 + second - first - 1;
        }
        seen = upto;
        before = next;
    }
    0
}

// Whether a chick or hen of that form may stand on the square.
fn may_have(square: u64, form: u64) -> bool
    requires { form < 4 }
    ensures { result ≡ may_have B square form }
{
    match form {
        0 => square / 3 != 3,
        2 => square / 3 != 0,
        _ => true,
    }
}

// How many of the forms before that one a chick or hen may have on the square.
#[tactic(auto, using(crate::proofs::ProfileB::ChickForms::low_on_first, crate::proofs::ProfileB::ChickForms::high_on_first, crate::proofs::ProfileB::ChickForms::on_last, crate::proofs::ProfileB::ChickForms::on_others))]
fn forms_below(square: u64, form: u64) -> u64
    requires { form ≤ 4 }
    ensures value { result ≡ marks_below (may_have B square) form }
    ensures bound { result ≤ 4 }
{
    match square / 3 {
        0 => { if form < 3 { form } else { form - 1 } }
        3 => form.saturating_sub(1),
        _ => form,
    }
}

/// Whether at most two chicks or hens on those squares may have the forms of that number.
pub fn may_have_forms(chicks: u64, squares: (u64, u64), forms: u64) -> bool
    requires chicks { chicks ≤ 2 }
    ensures { result ≡ forms_stand chicks squares.0 squares.1 forms }
{
    match chicks {
        0 => true,
        1 => may_have(squares.0, forms % 4),
        _ => {
            if may_have(squares.0, forms / 4 % 4) {
                may_have(squares.1, forms % 4)
            } else {
                false
            }
        }
    }
}

/// How many of the numbers before that one are of forms that they may have.
pub fn number_of_forms(chicks: u64, squares: (u64, u64), forms: u64) -> u64
    requires chicks { chicks ≤ 2 }
    requires forms { forms ≤ 4 ^ chicks }
    ensures value { result ≡ marks_below (forms_stand chicks squares.0 squares.1) forms }
    ensures bound { result ≤ 20 }
{
    match chicks {
        0 => forms,
        1 => forms_below(squares.0, forms),
        _ => {
            let before = forms_below(squares.0, forms / 4) * forms_below(squares.1, 4);
            if may_have_forms(1, squares, forms / 4) {
                before + forms_below(squares.1, forms % 4)
            } else {
                before
            }
        }
    }
}

/// The number of the forms with `number` before them that chicks on those squares may have.
pub fn forms_at(chicks: u64, squares: (u64, u64), number: u64) -> u64
    requires chicks { chicks ≤ 2 }
    requires number { number < marks_below (forms_stand chicks squares.0 squares.1) (4 ^ chicks) }
    ensures below { result < 4 ^ chicks }
    ensures allowed { forms_stand chicks squares.0 squares.1 result ≡ true }
    ensures number { marks_below (forms_stand chicks squares.0 squares.1) result ≡ number }
{
    let mut before = 0;
    for forms in 0..power(4, chicks) {
        if may_have_forms(chicks, squares, forms) {
            if before == number {
                return forms;
            }
            before += 1;
        }
    }
    0
}
