// How many classes of a family stand before a place, without a table of them: block by block, run by run, and in a run whose lions both stand on column b
// stretch by stretch, or half of it at once. No memory is taken.
ghost use Rattle.std.specs.Prelude.{◌≡◌, ◌<◌, ◌≤◌, ◌+◌, ◌%◌};
ghost use Rattle.dob_rank.specs.Families.{IsPositionOf, IsInClass, is_marked, classes_of, class_number as number_of_class};
ghost use Rattle.dob_classes.specs.BlockRows.{IsRowOf};
ghost use Rattle.dob_classes.specs.FamilyRuns.{is_there, local_marks_in, run_size_in};
ghost use Rattle.dob_rank.specs.Marks.{marks_below};
ghost use Rattle.dob_rank.specs.Numbers.{product, block_bases, start_of, rank_of_set};
ghost use Rattle.dob_rank.specs.Runs.{runs_in, run_size, run_start, run_kind, lion_pairs};
ghost use Rattle.dob_rank.specs.declared.runs.RunKind.TheVariants.{Mixed};

use crate::class_walks::MixedRun;
use crate::representatives::representative;
use crate::rows::Row;
use crate::spots::count_before;
use dob_pieces::{Family, Position};
use dob_rank::block;
use dob_rank::even_ways::even_ways;
use dob_rank::runs::{LIONS, RunKind, kind_of};
use dob_rank::set_ranks::spot_of;

/// The number of the class of a position of the family: how many representatives stand before the earlier of it and its
/// mirror image. It takes no memory, and at most some hundredths of a second for two pieces of each kind: where many
/// numbers are asked for, `Classes` gives each at once.
pub fn class_number(family: Family, position: &Position) -> u64
    requires { IsPositionOf family position.now.setup }
    ensures class { IsInClass family position.now.setup result }
    ensures number { result ≡ number_of_class family position.now.setup }
    ensures bound { result < classes_of family }
{
    classes_before_position(family, &representative(family.profile, position))
}

// How many representatives stand before a position of the family.
fn classes_before_position(family: Family, position: &Position) -> u64
    requires { IsPositionOf family position.now.setup }
    ensures { result ≡ marks_below (is_marked family) (rank_of_set family.set position.now.setup) }
{
    let (block, spot) = spot_of(family.set, position);
    let blocks = classes_before_block(family, block);
    let runs = row_of(family, block, blocks, spot.run).before_run(spot.run);
    let places = classes_in_run(family, block, spot.run, spot.local);
    runs + places
}

/// How many representatives stand in the blocks before one, or before the end of the last.
pub(crate) fn classes_before_block(family: Family, block: u64) -> u64
    requires { block ≤ product (block_bases family.set) }
    ensures { result ≡ marks_below (is_marked family) (start_of family.set block) }
{
    let mut count = 0;
    for earlier in 0..block {
        let runs = block::count_runs(family.set, earlier);
        count = row_of(family, earlier, count, runs).before_run(runs);
    }
    count
}

// What the row of a block with `before` classes before it says of a run, or of the end of the last.
fn row_of(family: Family, block: u64, before: u64, run: u64) -> Row
    requires block { block < product (block_bases family.set) }
    requires before { before ≡ marks_below (is_marked family) (start_of family.set block) }
    requires run { run ≤ runs_in family.set block }
    ensures { IsRowOf family block run result }
{
    Row {
        before,
        hand: classes_of_lions(family, block, LIONS),
        run: classes_of_lions(family, block, run % LIONS),
    }
}

// How many representatives stand in the first hand's runs before that of those lions, or before the end of its last.
fn classes_of_lions(family: Family, block: u64, lions: u64) -> u64
    requires block { block < product (block_bases family.set) }
    requires lions { lions ≤ LIONS }
    ensures { marks_below (is_marked family) (start_of family.set block) + result ≡ marks_below (is_marked family) (run_start family.set block lions) }
{
    let size = block::run_size_in(family.set, block);
    let mut count = 0;
    for run in 0..lions {
        count += classes_in_run(family, block, run, size);
    }
    count
}

/// How many representatives stand in a run before that place, or before its end.
pub fn classes_in_run(family: Family, block: u64, run: u64, place: u64) -> u64
    requires block { block < product (block_bases family.set) }
    requires run { run < runs_in family.set block }
    requires place { place ≤ run_size family.set block }
    ensures { marks_below (is_marked family) (run_start family.set block run) + result ≡ marks_below (is_marked family) (run_start family.set block run + place) }
{
    match kind_of(run % LIONS) {
        RunKind::First => count_before(family, block, run, place),
        RunKind::Later => 0,
        RunKind::Mixed => classes_in_mixed_run(family, block, run, place),
    }
}

// The classes before a place of a run whose lions both stand on column b, or before its end.
fn classes_in_mixed_run(family: Family, block: u64, run: u64, place: u64) -> u64
    requires block { block < product (block_bases family.set) }
    requires run { run < runs_in family.set block }
    requires place { place ≤ run_size family.set block }
    requires kind { run_kind (run % lion_pairs) ≡ Mixed }
    ensures { result ≡ marks_below (local_marks_in family block run) (marks_below (is_there family block run) place) }
{
    let size = block::run_size_in(family.set, block);
    if place == size {
        half_of_run(family, block, run, size)
    } else {
        classes_in_stretches(family, block, run, place)
    }
}

// All classes of such a run of `size` places: half of its positions and of those that are their own mirror image.
fn half_of_run(family: Family, block: u64, run: u64, size: u64) -> u64
    requires block { block < product (block_bases family.set) }
    requires run { run < runs_in family.set block }
    requires size { size ≡ run_size family.set block }
    requires kind { run_kind (run % lion_pairs) ≡ Mixed }
    ensures { result ≡ marks_below (local_marks_in family block run) (run_size_in family block run) }
{
    let all = count_before(family, block, run, size);
    let on_board = block::numbers_in(family.set, block);
    let own = even_ways(family.profile, &on_board, run % LIONS);
    (all + own) / 2
}

// The classes before a place of a run whose lions both stand on column b, one stretch after another.
fn classes_in_stretches(family: Family, block: u64, run: u64, place: u64) -> u64
    requires block { block < product (block_bases family.set) }
    requires run { run < runs_in family.set block }
    requires place { place ≤ run_size family.set block }
    requires kind { run_kind (run % lion_pairs) ≡ Mixed }
    ensures { result ≡ marks_below (local_marks_in family block run) (marks_below (is_there family block run) place) }
{
    let run = MixedRun { family, block, run };
    let mut walk = run.walk_from(0);
    run.walk_to(&mut walk, place)
}
