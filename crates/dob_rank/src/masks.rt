// What the squares of a layer, as the bits of a number, say: how many there are, the number of their choice, and that of the forms of their pieces.
ghost use Rattle.std.specs.Prelude.{◌≡◌, ◌<◌, ◌≤◌, ℕ, suc, List, length};
ghost use Rattle.std.specs.Int.{bit_at};
ghost use Rattle.dob_pieces.specs.Boards.{IsBoardOf};
ghost use Rattle.dob_pieces.specs.Setups.{at};
ghost use Rattle.dob_pieces.specs.declared.setup.Setup.{Setup};
ghost use Rattle.dob_rank.specs.BoardDigits.{HasOfLayer};
ghost use Rattle.dob_rank.specs.Masks.{layer_mask, from_mask};
ghost use Rattle.dob_rank.specs.Numbers.{order, layer, count, choice, forms_number};
ghost use Rattle.dob_rank.specs.Order.{form};

use crate::forms::base_of;
use crate::layers::Layer;
use dob_pieces::{Board, SquareSet};

/// All squares of the board.
pub(crate) const ALL: u64 = 0b111_111_111_111;

/// How many squares a mask has.
pub(crate) fn count(mask: u64) -> u64
    ensures value { (t : ℕ) (ls : List ℕ) → mask ≡ layer_mask t ls → result ≡ count t ls }
    ensures bound { result ≤ 64 }
{
    u64::from(mask.count_ones())
}

/// The number of the choice that a layer of `pieces` squares, at most two, makes; `later` has the squares of later
/// layers.
pub(crate) fn choice_of(mask: u64, later: u64, pieces: u64) -> u64
    requires { pieces ≤ 2 }
    ensures { (t : ℕ) (ls : List ℕ) → t < order Layer.Empty → length ls ≤ 12 → mask ≡ layer_mask t ls → later ≡ from_mask (suc t) ls
        → count t ls ≡ pieces → result ≡ choice t ls }
{
    if pieces == 0 {
        return 0;
    }
    let below = mask.saturating_sub(1);
    let first = u64::from((below & later).count_ones());
    if pieces == 1 {
        return first;
    }
    let rest = (mask & below).saturating_sub(1);
    let second = u64::from((rest & later).count_ones());
    let open = u64::from(later.count_ones());
    first * (2 * open + 1).saturating_sub(first) / 2 + second
}

/// The number whose digits are the forms of the pieces of a layer with those squares, at most two.
pub(crate) fn forms_of(board: &Board, mask: u64, of_layer: Layer, pieces: u64) -> u64
    requires few { pieces ≤ 2 }
    requires layer { (setup : Setup) × HasOfLayer of_layer mask pieces setup board.now }
    ensures { (setup : Setup) → HasOfLayer of_layer mask pieces setup board.now → result ≡ forms_number (order of_layer) setup.board }
{
    if pieces == 0 {
        return 0;
    }
    let first = form_at(board, of_layer, mask.trailing_zeros());
    if pieces == 1 {
        return first;
    }
    let rest = mask & mask.saturating_sub(1);
    let second = form_at(board, of_layer, rest.trailing_zeros());
    first * base_of(of_layer) + second
}

/// The form of the piece of that layer on the square of that number.
pub(crate) fn form_at(board: &Board, of_layer: Layer, square: u32) -> u64
    requires { square < 12 }
    ensures value { (setup : Setup) → IsBoardOf setup board.now → layer (at setup square) ≡ order of_layer → result ≡ form (at setup square) }
    ensures bound { result ≤ 3 }
{
    let enemy = bit_of(board.enemies, square);
    match of_layer {
        Layer::Chicks => 2 * enemy + bit_of(board.hens, square),
        _ => enemy,
    }
}

fn bit_of(set: SquareSet, square: u32) -> u64
    requires { square < 12 }
    ensures value { result ≡ bit_at set square }
    ensures bound { result ≤ 1 }
{
    u64::from(set) >> square & 1
}
