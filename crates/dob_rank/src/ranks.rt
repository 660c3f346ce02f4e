// Ranks: the positions of a family, those of a piece set that a profile allows, in the order of their key. In profile A these are all positions of the
// set (src/set_ranks.rt). In profile B a choice of the chicks' squares has as many forms as its squares let it have (src/chick_forms.rt), so that a place in
// a block is a sum of such numbers in place of a number in mixed radix.
ghost use Rattle.std.specs.Prelude.{◌≡◌, ◌<◌, ◌≤◌, ◌+◌, ◌*◌, ◌^◌, slice_index};
ghost use Rattle.dob_pieces.specs.Profiles.{IsAllowed};
ghost use Rattle.dob_pieces.specs.declared.profile.Profile.TheVariants.{B};
ghost use Rattle.dob_pieces.specs.declared.setup.Setup.{Setup};
ghost use Rattle.dob_rank.specs.Families.{family_of, IsPositionOf, HasSize, HasRank, IsRanked, is_present, size_of, rank_of};
ghost use Rattle.dob_rank.specs.Marks.{marks_below};
ghost use Rattle.dob_rank.specs.Numbers.{product, block_bases, start_of, digits_of};
ghost use Rattle.dob_rank.specs.Order.{IsPositionOfSet};
ghost use Rattle.dob_rank.specs.Places.{IsSpotFor};
ghost use Rattle.dob_rank.specs.Runs.{AreFewOnBoard, runs_in, run_size, run_start};

use crate::block::{self, PerKind};
use crate::chick_forms::{before_lions, hand_size, lions_at};
use crate::run_places::{number_of_place, others_ways, place_of_number};
use crate::runs::{LIONS, Spot};
use crate::set_ranks::{
    digits_of, numbers_in, piece_set_of, position_by, spot_from, unrank_in_set,
};
use crate::starts::{block_start, find_block};
use dob_pieces::{Board, Family, PieceSet, Position, Profile};

/// How many positions the family has.
pub fn size(family: Family) -> u64
    ensures count { HasSize family result }
    ensures number { result ≡ size_of family }
    ensures bound { result < 2 ^ 31 }
{
    block_start(family, block::blocks(family.set))
}

/// How many positions of its piece set that the profile allows stand before the position, which is one of them.
pub fn rank(profile: Profile, position: &Position) -> u64
    requires { IsAllowed profile position.now.setup }
    ensures count { (set : PieceSet) → IsPositionOfSet set position.now.setup → HasRank (family_of set profile) position.now.setup result }
    ensures number { (set : PieceSet) → IsPositionOfSet set position.now.setup → result ≡ rank_of (family_of set profile) position.now.setup }
{
    let board = Board::of(&position.setup);
    let on_board = numbers_in(&board);
    let set = piece_set_of(position, &on_board);
    let family = Family { set, profile };
    let (block, spot) = spot_from(set, &on_board, &digits_of(&board, &on_board));
    block_start(family, block) + place_in(family, block, &on_board, spot)
}

/// The position of the family with `rank` others before it, fewer than the family has.
pub fn unrank(family: Family, rank: u64) -> Position
    requires { rank < size_of family }
    ensures position { IsPositionOf family result.setup }
    ensures count { HasRank family result.setup rank }
    ensures number { rank_of family result.setup ≡ rank }
    ensures only { (p : Setup) → IsPositionOf family p → rank_of family p ≡ rank → p ≡ result.setup }
{
    match family.profile {
        Profile::A => unrank_in_set(family.set, rank),
        Profile::B => unrank_in_b(family.set, rank),
    }
}

// How many positions of the family stand, in its block, before that spot.
fn place_in(family: Family, block: u64, on_board: &PerKind, spot: Spot) -> u64
    requires block { block < product (block_bases family.set) }
    requires numbers { on_board.now ≡ digits_of (block_bases family.set) block }
    requires run { spot.run < runs_in family.set block }
    requires local { spot.local < run_size family.set block }
    requires few_runs { spot.run < 2 ^ 12 }
    ensures { marks_below (is_present family) (start_of family.set block) + result
        ≡ marks_below (is_present family) (run_start family.set block spot.run + spot.local) }
{
    match family.profile {
        Profile::A => block::place_of(on_board, spot),
        Profile::B => {
            let lions = spot.run % LIONS;
            let hands = spot.run / LIONS * hand_size(on_board[0]);
            let chosen = hands + before_lions(on_board[0], lions);
            chosen * others_ways(on_board) + number_of_place(on_board, lions, spot.local)
        }
    }
}

// The position of profile B of that rank.
fn unrank_in_b(set: PieceSet, rank: u64) -> Position
    requires { rank < size_of (family_of set B) }
    ensures { IsRanked (family_of set B) result.setup rank }
{
    let profile = Profile::B;
    let (block, number) = find_block(Family { set, profile }, rank);
    let on_board = block::numbers_in(set, block);
    let spot = spot_in_b(&on_board, number);
    position_by(set, &on_board, &block::choices_in(&on_board), spot)
}

// The spot of a block of those numbers on the board with `number` positions of profile B before it in the block.
fn spot_in_b(on_board: &PerKind, number: u64) -> Spot
    requires few { AreFewOnBoard on_board.now }
    requires small { number < 2 ^ 42 }
    ensures { IsSpotFor on_board.now number result.run result.local }
{
    let others = others_ways(on_board);
    let in_hand = hand_size(on_board[0]);
    let chosen = number / others;
    let hands = chosen / in_hand;
    let lions = lions_at(on_board[0], chosen % in_hand);
    let before = hands * in_hand + before_lions(on_board[0], lions);
    Spot {
        run: hands * LIONS + lions,
        local: place_of_number(on_board, lions, number - before * others),
    }
}
