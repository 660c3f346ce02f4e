// Where the numbers of an index stand, how many there are, and whether they are marked as a family's.
ghost use Rattle.std.specs.Prelude.{◌≡◌, ◌<◌, ◌≤◌, ◌+◌, ◌↔◌, ◌^◌, get_or, IsTrue};
ghost use Rattle.dob_rank.specs.Numbers.{product, sum_below, block_bases};
ghost use Rattle.dob_rank.specs.Runs.{run_kind, lion_pairs};
ghost use Rattle.dob_index.specs.Layout.{mark_of, row_at, entries_in, run_words, where_mixed, words_of};
ghost use Rattle.dob_index.specs.Index.{IsMarked};

use dob_classes::{
    BEFORE_PLACE, HAND_PLACE, LIONS, ROW_LEN, RunKind, count_blocks, kind_of, run_size_in,
};
use dob_pieces::{Family, PieceSet};

/// How many places an entry stands for.
pub(crate) const ENTRY_PLACES: u64 = 256;

/// The places of a row of `dob_classes` that aren't runs', and behind that row where the entries of the first run begin.
pub(crate) const HAND: u64 = HAND_PLACE as u64;

pub(crate) const BEFORE: u64 = BEFORE_PLACE as u64;

pub(crate) const ENTRIES: u64 = ROW_LEN as u64;

/// How many pairs of squares the lions have where both stand on column b: three of the own lion, and then three of the enemy's.
const MIXED_RUNS: u64 = 9;

/// The greatest number that is taken from an index as it stands: none that an index has is above it.
const MOST: u64 = 1 << 42;

/// How many numbers the index of a family of that set has.
pub fn index_words(set: PieceSet) -> u64
    ensures value { result ≡ words_of set }
    ensures bound { result ≤ 2 ^ 42 }
{
    let blocks = count_blocks(set);
    let mut count = row_at(blocks);
    for block in 0..blocks {
        count += block_words(set, block);
    }
    count
}

// How many entries the runs of a block have: the same number in each of its first hand's runs whose lions both stand on column b.
fn block_words(set: PieceSet, block: u64) -> u64
    requires { block < product (block_bases set) }
    ensures { result ≡ sum_below (run_words set block) lion_pairs }
{
    MIXED_RUNS * entries_in(set, block)
}

// How many entries the run of those lions has: `entries`, or none.
pub(crate) fn run_words(lions: u64, entries: u64) -> u64
    requires { lions < LIONS }
    ensures { result ≡ where_mixed (run_kind lions) entries }
{
    match kind_of(lions) {
        RunKind::Mixed => entries,
        _ => 0,
    }
}

/// How many entries a run of the block has whose lions both stand on column b.
pub(crate) fn entries_in(set: PieceSet, block: u64) -> u64
    requires { block < product (block_bases set) }
    ensures { result ≡ entries_in set block }
{
    run_size_in(set, block) / ENTRY_PLACES + 1
}

/// Where the block's row begins.
pub(crate) fn row_at(block: u64) -> u64
    requires { block ≤ 27 }
    ensures { result ≡ row_at block }
{
    3 + 200 * block
}

/// The first number of an index of the family.
pub(crate) fn mark_of(family: Family) -> u64
    ensures { result ≡ mark_of family }
{
    let set = family.set;
    u64::from_be_bytes(*b"dobuidx1")
        + 27 * u64::from(family.profile.number())
        + 9 * u64::from(set.chicks)
        + 3 * u64::from(set.elephants)
        + u64::from(set.giraffes)
}

/// Whether the numbers are marked as those of an index of the family, say that they are as many as it has, and are no fewer.
pub fn is_index_of(family: Family, words: &[u64]) -> bool
    ensures { IsTrue result ↔ IsMarked family words.now }
{
    match *words {
        [mark, _, len, ..] => {
            let count = index_words(family.set);
            mark == mark_of(family) && len == count && count <= words.len() as u64
        }
        _ => false,
    }
}

/// The number of classes that an index says, or the greatest that is taken from one.
pub fn classes_in(words: &[u64]) -> u64
    ensures value { get_or words.now 1 0 ≤ 2 ^ 42 → result ≡ get_or words.now 1 0 }
    ensures bound { result ≤ 2 ^ 42 }
{
    word(words, 1)
}

/// The number at that place, or the greatest that is taken from an index; 0 if there is none.
pub(crate) fn word(words: &[u64], place: u64) -> u64
    ensures value { get_or words.now place 0 ≤ 2 ^ 42 → result ≡ get_or words.now place 0 }
    ensures bound { result ≤ 2 ^ 42 }
{
    match words.get(place as usize) {
        Some(word) => MOST.min(*word),
        None => 0,
    }
}
