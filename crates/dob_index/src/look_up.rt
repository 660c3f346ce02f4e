// The number of a position's class by an index.
ghost use Rattle.std.specs.Prelude.{◌≡◌, ◌<◌, ◌≤◌, ◌+◌, ◌^◌};
ghost use Rattle.dob_pieces.specs.declared.profile.Family.{Family as AnyFamily};
ghost use Rattle.dob_rank.specs.Families.{IsPositionOf, is_marked, class_number};
ghost use Rattle.dob_rank.specs.Marks.{marks_below};
ghost use Rattle.dob_rank.specs.Numbers.{product, block_bases, rank_of_set};
ghost use Rattle.dob_rank.specs.Runs.{runs_in, run_size, run_start};
ghost use Rattle.dob_classes.specs.BlockRows.{IsRowOf};
ghost use Rattle.dob_index.specs.Index.{IsIndex};

use crate::layout::{BEFORE, ENTRIES, ENTRY_PLACES, HAND, row_at, word};
use dob_classes::{
    LIONS, MixedRun, Row, RunKind, classes_in_run, kind_of, representative, spot_of,
};
use dob_pieces::{Family, Position};

/// The number of the class of a position of the family by its index; some number by any others.
pub fn class_by(family: Family, words: &[u64], position: &Position) -> u64
    requires { IsPositionOf family position.now.setup }
    ensures { IsIndex family words.now → result ≡ class_number family position.now.setup }
{
    classes_before(family, words, &representative(family.profile, position))
}

// How many representatives stand before a position of the family.
fn classes_before(family: Family, words: &[u64], position: &Position) -> u64
    requires { IsPositionOf family position.now.setup }
    ensures { IsIndex family words.now → result ≡ marks_below (is_marked family) (rank_of_set family.set position.now.setup) }
{
    let (block, spot) = spot_of(family.set, position);
    let runs = row_of(words, block, spot.run).before_run(spot.run);
    let places = before_place(family, words, block, spot.run, spot.local);
    runs.wrapping_add(places)
}

// What the block's row says of a run.
fn row_of(words: &[u64], block: u64, run: u64) -> Row
    requires { block ≤ 27 }
    ensures { (family : AnyFamily) → block < product (block_bases family.set) → IsIndex family words.now → IsRowOf family block run result }
{
    let row = row_at(block);
    Row {
        before: word(words, row + BEFORE),
        hand: word(words, row + HAND),
        run: word(words, row + run % LIONS),
    }
}

// How many of them stand in the run before that place.
fn before_place(family: Family, words: &[u64], block: u64, run: u64, place: u64) -> u64
    requires block { block < product (block_bases family.set) }
    requires run { run < runs_in family.set block }
    requires place { place < run_size family.set block }
    ensures right { IsIndex family words.now
        → marks_below (is_marked family) (run_start family.set block run) + result ≡ marks_below (is_marked family) (run_start family.set block run + place) }
    ensures bound { result ≤ 2 ^ 54 }
{
    let lions = run % LIONS;
    match kind_of(lions) {
        RunKind::Mixed => before_in_entry(
            MixedRun {
                family,
                block,
                run: lions,
            },
            words,
            place,
        ),
        _ => classes_in_run(family, block, run, place),
    }
}

// How many of them stand in a run of the first hand before that place: as many as the entry says, and those behind it.
fn before_in_entry(run: MixedRun, words: &[u64], place: u64) -> u64
    requires first { run.run < LIONS }
    requires place { place < run_size run.family.set run.block }
    ensures right { IsIndex run.family words.now → marks_below (is_marked run.family) (run_start run.family.set run.block run.run) + result
        ≡ marks_below (is_marked run.family) (run_start run.family.set run.block run.run + place) }
    ensures bound { result ≤ 2 ^ 54 }
{
    let entry = place / ENTRY_PLACES;
    let first = word(words, row_at(run.block) + ENTRIES + run.run);
    let before = word(words, first + entry);
    let mut walk = run.walk_from(entry * ENTRY_PLACES);
    before + run.walk_to(&mut walk, place)
}
