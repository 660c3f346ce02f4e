// The positions of a family in a run of its set, numbered among themselves: in profile A by their places, in profile B by how many that it allows stand before.
ghost use Rattle.std.specs.Prelude.{◌≡◌, ◌<◌, ◌≤◌};
ghost use Rattle.dob_pieces.specs.declared.profile.Profile.TheVariants.{B};
ghost use Rattle.dob_pieces.specs.declared.setup.Setup.{Setup};
ghost use Rattle.dob_classes.specs.Views.{IsShown};
ghost use Rattle.dob_rank.specs.Families.{family_of};
ghost use Rattle.dob_classes.specs.FamilyRuns.{is_there};
ghost use Rattle.dob_rank.specs.Marks.{marks_below};
ghost use Rattle.dob_rank.specs.Numbers.{product, block_bases, block_of};
ghost use Rattle.dob_rank.specs.Runs.{runs_in, run_size, run_of, local_of};

use dob_pieces::{Board, Family, PieceSet, Profile};
use dob_rank::block;
use dob_rank::chick_forms::forms_in;
use dob_rank::run_places::{number_of_place, others_ways};
use dob_rank::runs::{LIONS, Spot};
use dob_rank::set_ranks::{numbers_in, spot_by};

/// How many positions of the family a run has before that place, or before its end. Inlined: for rules A it returns `place`.
#[inline(always)]
pub(crate) fn count_before(family: Family, block: u64, run: u64, place: u64) -> u64
    requires block { block < product (block_bases family.set) }
    requires run { run < runs_in family.set block }
    requires place { place ≤ run_size family.set block }
    ensures { result ≡ marks_below (is_there family block run) place }
{
    match family.profile {
        Profile::A => place,
        Profile::B => count_in_b(family.set, block, run, place),
    }
}

// The same in profile B, out of the way of what profile A does.
#[inline(never)]
fn count_in_b(set: PieceSet, block: u64, run: u64, place: u64) -> u64
    requires block { block < product (block_bases set) }
    requires run { run < runs_in set block }
    requires place { place ≤ run_size set block }
    ensures { result ≡ marks_below (is_there (family_of set B) block run) place }
{
    let on_board = block::numbers_in(set, block);
    let lions = run % LIONS;
    if place == block::run_size_in(set, block) {
        forms_in(on_board[0], lions) * others_ways(&on_board)
    } else {
        number_of_place(&on_board, lions, place)
    }
}

/// The number of the block of the position of the family that the board shows, and the position's run and number among those of the family there.
pub(crate) fn spot_in(family: Family, board: &Board) -> (u64, Spot)
    requires { (setup : Setup) × IsShown family setup board.now }
    ensures block { (setup : Setup) → IsShown family setup board.now → result.0 ≡ block_of family.set setup }
    ensures run { (setup : Setup) → IsShown family setup board.now → result.1.run ≡ run_of family.set setup }
    ensures local { (setup : Setup) → IsShown family setup board.now
        → result.1.local ≡ marks_below (is_there family (block_of family.set setup) (run_of family.set setup)) (local_of setup) }
{
    let (block, spot) = spot_by(family.set, board);
    match family.profile {
        Profile::A => (block, spot),
        Profile::B => {
            let run = spot.run;
            let local = number_of_place(&numbers_in(board), run % LIONS, spot.local);
            (block, Spot { run, local })
        }
    }
}
