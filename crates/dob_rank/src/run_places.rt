// Places of a run, numbered among those of rules B: how many of its positions stand before a place, and the place before which so many do.
ghost use Rattle.std.specs.Prelude.{◌≡◌, ◌<◌, ◌≤◌, ◌*◌, ◌^◌, slice_index};
ghost use Rattle.dob_pieces.specs.Lists.{one_if};
ghost use Rattle.dob_pieces.specs.declared.profile.Profile.TheVariants.{B};
ghost use Rattle.dob_rank.specs.Marks.{marks_below};
ghost use Rattle.dob_rank.specs.Numbers.{product};
ghost use Rattle.dob_rank.specs.Places.{IsPlaceFor};
ghost use Rattle.dob_rank.specs.Runs.{AreFewOnBoard, local_bases};
ghost use Rattle.dob_rank.specs.Weights.{allowed_place, forms_in, others_squares, others_forms};

use crate::block::{self, PerKind};
use crate::chick_forms::{choice_at, choice_of, forms_at, may_have_forms, number_of_forms};
use crate::runs::LIONS;
use dob_lists::{join_by_power, split_by_power};

/// How many positions of rules B a run of those lions has before the place.
pub fn number_of_place(on_board: &PerKind, lions: u64, place: u64) -> u64
    requires few { AreFewOnBoard on_board.now }
    requires lions { lions < LIONS }
    requires place { place < product (local_bases on_board.now) }
    ensures value { result ≡ marks_below (allowed_place B on_board.now lions) place }
    ensures bound { result ≤ place }
{
    let chicks = on_board[0];
    let bits = others_bits(on_board);
    let others = others_in(on_board);
    let (rest, others_forms) = split_by_power(place, bits);
    let (square, forms) = split_by_power(rest, 2 * chicks);
    let choice = choice_of(chicks, lions, square / others);
    let before = choice.before * others
        + square % others * choice.forms
        + number_of_forms(chicks, choice.squares, forms);
    let is_allowed = may_have_forms(chicks, choice.squares, forms);
    join_by_power(before, own_forms(is_allowed, others_forms), bits)
}

/// The place in a run of those lions before which `number` positions of rules B stand.
pub fn place_of_number(on_board: &PerKind, lions: u64, number: u64) -> u64
    requires few { AreFewOnBoard on_board.now }
    requires lions { lions < LIONS }
    requires number { number < forms_in B (slice_index on_board.now 0) lions * (others_squares on_board.now * others_forms on_board.now) }
    ensures { IsPlaceFor on_board.now lions number result }
{
    let chicks = on_board[0];
    let bits = others_bits(on_board);
    let others = others_in(on_board);
    let (rest, others_forms) = split_by_power(number, bits);
    let found = choice_at(chicks, lions, rest / others);
    let choice = choice_of(chicks, lions, found);
    let left = rest - choice.before * others;
    let square = found * others + left / choice.forms;
    let forms = forms_at(chicks, choice.squares, left % choice.forms);
    join_by_power(join_by_power(square, forms, 2 * chicks), others_forms, bits)
}

/// In how many ways the others' squares and forms are chosen.
pub fn others_ways(on_board: &PerKind) -> u64
    requires { AreFewOnBoard on_board.now }
    ensures value { result ≡ others_squares on_board.now * others_forms on_board.now }
    ensures positive { 0 < result }
    ensures bound { result ≤ 2025 * 16 }
{
    join_by_power(others_in(on_board), 0, others_bits(on_board))
}

// How many of the others' forms count: all before theirs, where the chicks' forms are allowed.
fn own_forms(is_allowed: bool, before: u64) -> u64
    ensures value { result ≡ before * one_if is_allowed }
    ensures bound { result ≤ before }
{
    if is_allowed { before } else { 0 }
}

// How many bits hold the others' forms.
#[tactic(auto, using(crate::proofs::ProfileB::PlaceNumbers::others_bits_are))]
fn others_bits(on_board: &PerKind) -> u64
    requires { AreFewOnBoard on_board.now }
    ensures value { 2 ^ result ≡ others_forms on_board.now }
    ensures bound { result ≤ 4 }
{
    on_board[1] + on_board[2]
}

// In how many ways the others' squares are chosen.
fn others_in(on_board: &PerKind) -> u64
    requires { AreFewOnBoard on_board.now }
    ensures value { result ≡ others_squares on_board.now }
    ensures positive { 0 < result }
    ensures bound { result ≤ 2025 }
{
    let choices = block::choices_in(on_board);
    choices[1] * choices[2]
}
