// The numbers of an index, written into the caller's memory: the rows of all blocks, and behind them the entries in the order of their runs.
ghost use Rattle.std.specs.Prelude.{◌≡◌, ◌<◌, ◌≤◌, ◌+◌, ◌⊎◌, ◌^◌, ℕ, length, get_or};
ghost use Rattle.dob_rank.specs.Families.{is_marked};
ghost use Rattle.dob_rank.specs.Marks.{marks_below};
ghost use Rattle.dob_rank.specs.Numbers.{product, block_bases, start_of};
ghost use Rattle.dob_rank.specs.Runs.{run_size, run_start, run_kind};
ghost use Rattle.dob_rank.specs.declared.runs.RunKind.TheVariants.{Mixed};
ghost use Rattle.dob_index.specs.Layout.{words_of, row_at, entries_at, entries_in, run_words};
ghost use Rattle.dob_index.specs.Index.{IsIndex, IsKeptBlock, IsKeptRun, AreEntriesFrom};

use crate::layout::{BEFORE, ENTRIES, ENTRY_PLACES, entries_in, mark_of, row_at, run_words};
use dob_classes::{
    LIONS, MixedRun, RunKind, classes_in_run, count_blocks, count_runs, kind_of, run_size_in,
};
use dob_pieces::Family;

/// Writes the index of the family into the first of those numbers, as many as `index_words` says. Those behind stay as they were.
pub fn write_index(family: Family, words: &mut [u64])
    requires { words_of family.set ≤ length words.old }
    ensures index { IsIndex family words.new }
    ensures others { (i : ℕ) → words_of family.set ≤ i → get_or words.new i 0 ≡ get_or words.old i 0 }
{
    let blocks = count_blocks(family.set);
    let mut before = 0;
    let mut at = row_at(blocks);
    for block in 0..blocks {
        let (classes, entries) = write_block(family, block, before, words, at);
        before = classes;
        at = entries;
    }
    words[0] = mark_of(family);
    words[1] = before;
    words[2] = at;
}

// Writes the row of a block with `before` classes before it, and the entries of its runs from a place on. Gives how many classes stand before the next block,
// and where its entries begin.
fn write_block(family: Family, block: u64, before: u64, words: &mut [u64], first: u64) -> (u64, u64)
    requires block { block < product (block_bases family.set) }
    requires before { before ≡ marks_below (is_marked family) (start_of family.set block) }
    requires first { first ≡ entries_at family.set block 0 }
    requires room { words_of family.set ≤ length words.old }
    ensures size { length words.new ≡ length words.old }
    ensures before { result.0 ≡ marks_below (is_marked family) (start_of family.set (block + 1)) }
    ensures first { result.1 ≡ entries_at family.set (block + 1) 0 }
    ensures block { IsKeptBlock family block result.1 words.new }
    ensures others { (i : ℕ) → (i < row_at block) ⊎ (row_at (block + 1) ≤ i) → (i < first) ⊎ (result.1 ≤ i) → get_or words.new i 0 ≡ get_or words.old i 0 }
{
    let row = row_at(block);
    words[row as usize] = 0;
    words[(row + BEFORE) as usize] = before;
    let entries = entries_in(family.set, block);
    let mut count = 0;
    let mut at = first;
    for lions in 0..LIONS {
        words[(row + ENTRIES + lions) as usize] = at;
        count += write_run(family, block, lions, words, at);
        words[(row + 1 + lions) as usize] = count;
        at += run_words(lions, entries);
    }
    (before + count_runs(family.set, block) / LIONS * count, at)
}

// Writes the entries of a run of the first hand from a place on, where its lions both stand on column b, and counts the classes that stand in it.
fn write_run(family: Family, block: u64, lions: u64, words: &mut [u64], at: u64) -> u64
    requires block { block < product (block_bases family.set) }
    requires lions { lions < LIONS }
    requires room { at + run_words family.set block lions ≤ length words.old }
    ensures size { length words.new ≡ length words.old }
    ensures count { marks_below (is_marked family) (run_start family.set block lions) + result
        ≡ marks_below (is_marked family) (run_start family.set block lions + run_size family.set block) }
    ensures entries { run_kind lions ≡ Mixed → AreEntriesFrom family block lions at words.new }
    ensures others { (i : ℕ) → (i < at) ⊎ (at + run_words family.set block lions ≤ i) → get_or words.new i 0 ≡ get_or words.old i 0 }
{
    let size = run_size_in(family.set, block);
    match kind_of(lions) {
        RunKind::Mixed => write_entries(
            MixedRun {
                family,
                block,
                run: lions,
            },
            size,
            words,
            at as usize,
        ),
        _ => classes_in_run(family, block, lions, size),
    }
}

// Writes the entries of a run from a place on, and counts the classes that stand in it.
fn write_entries(run: MixedRun, size: u64, words: &mut [u64], at: usize) -> u64
    requires first { run.run < LIONS }
    requires size { size ≡ run_size run.family.set run.block }
    requires room { at + entries_in run.family.set run.block ≤ length words.old }
    ensures size { length words.new ≡ length words.old }
    ensures count { marks_below (is_marked run.family) (run_start run.family.set run.block run.run) + result
        ≡ marks_below (is_marked run.family) (run_start run.family.set run.block run.run + size) }
    ensures entries { AreEntriesFrom run.family run.block run.run at words.new }
    ensures others { (i : ℕ) → (i < at) ⊎ (at + entries_in run.family.set run.block ≤ i) → get_or words.new i 0 ≡ get_or words.old i 0 }
{
    let mut walk = run.walk_from(0);
    let mut count = 0;
    for entry in 0..size / ENTRY_PLACES + 1 {
        count += run.walk_to(&mut walk, entry * ENTRY_PLACES);
        words[at + entry as usize] = count;
    }
    count + run.walk_to(&mut walk, size)
}
