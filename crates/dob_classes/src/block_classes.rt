// The classes of one block of a family: for each of the first hand's runs the number of classes in the block before it, and tables of marks for the runs in which
// the lions don't say which positions are representatives. A run's positions are numbered among those of the family.
ghost use Rattle.std.specs.Prelude.{◌≡◌, true, ◌<◌, ◌≤◌, ◌+◌, ◌*◌, ◌%◌, ◌^◌, IfOk, vec_len, ℕ, List};
ghost use Rattle.dob_rank.specs.Numbers.{product, digits_of, bases_by, block_bases, block_size, start_of};
ghost use Rattle.dob_rank.specs.Marks.{marks_below};
ghost use Rattle.dob_rank.specs.Families.{is_marked};
ghost use Rattle.dob_classes.specs.BlockRows.{IsRowOf};
ghost use Rattle.dob_classes.specs.FamilyRuns.{run_size_in, local_marks_in, classes_before, IsNumbered};
ghost use Rattle.dob_rank.specs.Runs.{square_bases, local_bases, run_bases, run_digits, runs_in, run_size, run_start, run_kind, lion_pairs};
ghost use Rattle.dob_classes.specs.declared.runs.FirstRun.{FirstRun};
ghost use Rattle.dob_rank.specs.declared.runs.RunKind.TheVariants.{Mixed};
ghost use Rattle.dob_classes.specs.RunTables.{AreDigits, AreRuns, HasTable, IsRun};
ghost use Rattle.dob_rank.specs.Placing.{AreAllPlaces};

use crate::place_tables::all_places;
use crate::rows::Row;
use crate::runs::FirstRun;
use crate::spots::count_before;
use crate::stretch_tables::StretchTable;
use dob_pieces::{Family, Memory, PieceSet, Profile};
use dob_rank::block::{self, DIGITS, PerKind};
use dob_rank::placing::Places;
use dob_rank::run_places::place_of_number;
use dob_rank::runs::{LIONS, RunDigits, RunKind, Spot, kind_of};
use std::alloc::Global;

/// The classes of a block of a family.
#[derive(Drop)]
pub(crate) struct BlockClasses {
    pub(crate) family: Family,
    pub(crate) number: u64,
    /// How many classes stand before the block, how many up to its end, and how many in the runs of each hand.
    pub(crate) before: u64,
    pub(crate) after: u64,
    hand: u64,
    /// How many pieces of each kind stand on the board, and in how many ways their squares are chosen.
    pub(crate) on_board: PerKind,
    pub(crate) choices: PerKind,
    /// The runs of the first hand, by their lions.
    runs: Vec<FirstRun>,
    mixed: Vec<StretchTable>,
    /// The digits of all runs, so that none needs a division.
    digits: Vec<RunDigits>,
    /// The places of each choice of squares.
    pub(crate) places: Vec<Places>,
    ghost within: { number < product (block_bases family.set) },
    ghost starts: { before ≡ marks_below (is_marked family) (start_of family.set number) },
    ghost ends: { after ≡ marks_below (is_marked family) (start_of family.set number + block_size family.set number) },
    ghost hands: { before + hand ≡ marks_below (is_marked family) (run_start family.set number lion_pairs) },
    ghost numbers: { on_board ≡ digits_of (block_bases family.set) number },
    ghost chosen: { choices ≡ square_bases on_board },
    ghost whole: { vec_len runs ≡ lion_pairs },
    ghost table: { AreRuns family number (vec_len runs) runs.items mixed.items },
    ghost each: { vec_len digits ≡ runs_in family.set number },
    ghost told: { AreDigits family.set on_board (vec_len digits) digits.items },
    ghost placed: { AreAllPlaces on_board places.items },
}

impl BlockClasses {
    /// Opens the classes of the block of that number, with `before` classes before it.
    pub(crate) fn open(
        alloc: Global,
        family: Family,
        number: u64,
        before: u64,
    ) -> Result<BlockClasses, Memory>
        requires within { number < product (block_bases family.set) }
        requires before { before ≡ marks_below (is_marked family) (start_of family.set number) }
        ensures family { IfOk result (λ block. block.family ≡ family) }
        ensures number { IfOk result (λ block. block.number ≡ number) }
    {
        let on_board = block::numbers_in(family.set, number);
        let choices = block::choices_in(&on_board);
        let size = block::run_size_in(family.set, number);
        let mut runs = Vec::new(alloc);
        let mut mixed = Vec::new(alloc);
        let mut hand = 0;
        for lions in 0..LIONS {
            let table = table_of(alloc, family, number, lions, &mut mixed)?;
            runs.push(FirstRun {
                before: hand,
                kind: kind_of(lions),
                table,
            })?;
            hand += count_marks(family, number, lions, size, table, &mixed);
        }
        let digits = all_digits(alloc, family.set, number, &on_board)?;
        let places = all_places(alloc, &on_board, &choices)?;
        let row = Row {
            before,
            hand,
            run: 0,
        };
        Ok(BlockClasses {
            family,
            number,
            before,
            after: row.before_run(block::count_runs(family.set, number)),
            hand,
            on_board,
            choices,
            runs,
            mixed,
            digits,
            places,
        })
    }

    /// Whether the position of that run and number of the block is a representative, and how many are before it.
    pub(crate) fn look_up(&self, spot: Spot) -> (bool, u64)
        requires run { spot.run < runs_in self.now.family.set self.now.number }
        requires local { spot.local < run_size_in self.now.family self.now.number spot.run }
        ensures mark { result.0 ≡ local_marks_in self.now.family self.now.number spot.run spot.local }
        ensures before { result.1 ≡ classes_before self.now.family self.now.number spot.run spot.local }
    {
        let run = short(spot.run);
        let before = self.row_of(run).before_run(run);
        let first = self.first_run(run);
        match first.kind {
            RunKind::First => (true, before + spot.local),
            RunKind::Later => (false, before),
            RunKind::Mixed => {
                let (is_marked, marks) = self.mixed[first.table].look_up(spot.local);
                (is_marked, before + marks)
            }
        }
    }

    /// The spot of the representative with `class` others before it in the family.
    #[inline(always)]
    pub(crate) fn spot_at(&self, class: u64) -> Spot
        requires low { self.now.before ≤ class }
        requires high { class < self.now.after }
        ensures run { result.run < runs_in self.now.family.set self.now.number }
        ensures local { result.local < run_size self.now.family.set self.now.number }
        ensures mark { is_marked self.now.family (run_start self.now.family.set self.now.number result.run + result.local) ≡ true }
        ensures class { marks_below (is_marked self.now.family) (run_start self.now.family.set self.now.number result.run + result.local) ≡ class }
    {
        let (run, left) = self.run_at(class);
        let number = self.number_at(run, left);
        Spot {
            run,
            local: self.place_at(run, number),
        }
    }

    // The run in which that representative stands, and how many others stand before it there: the hand by a division, the lions by a search.
    fn run_at(&self, class: u64) -> (u64, u64)
        requires low { self.now.before ≤ class }
        requires high { class < self.now.after }
        ensures run { result.0 < runs_in self.now.family.set self.now.number }
        ensures left { marks_below (is_marked self.now.family) (run_start self.now.family.set self.now.number result.0) + result.1 ≡ class }
        ensures high { class < marks_below (is_marked self.now.family) (run_start self.now.family.set self.now.number (result.0 + 1)) }
    {
        let of_block = class - self.before;
        let of_hand = of_block % self.hand;
        let lions = self.lions_at(of_hand);
        let before = self.before_lions(lions);
        (of_block / self.hand * LIONS + lions, of_hand - before)
    }

    // The lions of the first hand's run in which the representative with `left` others before it in the block stands.
    fn lions_at(&self, left: u64) -> u64
        requires { left < self.now.hand }
        ensures lions { result < lion_pairs }
        ensures low { marks_below (is_marked self.now.family) (run_start self.now.family.set self.now.number result) ≤ self.now.before + left }
        ensures high { self.now.before + left < marks_below (is_marked self.now.family) (run_start self.now.family.set self.now.number (result + 1)) }
    {
        let mut low = 0;
        // Among how many runs from there on it is. No step's length depends on what was found, so the compiler writes all steps out.
        let mut runs = LIONS;
        while 1 < runs {
            let half = runs / 2;
            let middle = low + half;
            if self.before_lions(middle) <= left {
                low = middle;
            }
            runs -= half;
        }
        low
    }

    // How many classes of the block stand before the first hand's run of those lions.
    fn before_lions(&self, lions: u64) -> u64
        requires { lions < lion_pairs }
        ensures { self.now.before + result ≡ marks_below (is_marked self.now.family) (run_start self.now.family.set self.now.number lions) }
    {
        self.runs[lions as usize].before
    }

    // What the block's row says of a run.
    fn row_of(&self, run: u64) -> Row
        requires { run < runs_in self.now.family.set self.now.number }
        ensures { IsRowOf self.now.family self.now.number run result }
    {
        Row {
            before: self.before,
            hand: self.hand,
            run: self.first_run(run).before,
        }
    }

    // The first hand's run of the same lions.
    fn first_run(&self, run: u64) -> FirstRun
        ensures { IsRun self.now.family self.now.number (run % lion_pairs) self.now.mixed.items result }
    {
        self.runs[(run % LIONS) as usize]
    }

    /// The digits of the position at that spot.
    #[inline(always)]
    pub(crate) fn digits_at(&self, spot: Spot) -> [u64; DIGITS]
        requires run { spot.run < runs_in self.now.family.set self.now.number }
        requires local { spot.local < run_size self.now.family.set self.now.number }
        ensures { result ≡ digits_of (bases_by self.now.family.set self.now.on_board) (spot.run * product (local_bases self.now.on_board) + spot.local) }
    {
        let run = self.digits_of(spot.run);
        block::digits_with(self.family.set, &self.on_board, &self.choices, run, spot)
    }

    fn digits_of(&self, run: u64) -> RunDigits
        requires { run < runs_in self.now.family.set self.now.number }
        ensures { run_digits result ≡ digits_of (run_bases self.now.family.set self.now.on_board) run }
    {
        self.digits[run as usize]
    }

    // The number of the representative with `left` others before it in its run.
    fn number_at(&self, run: u64, left: u64) -> u64
        requires run { run < runs_in self.now.family.set self.now.number }
        requires left { marks_below (is_marked self.now.family) (run_start self.now.family.set self.now.number run) + left
            < marks_below (is_marked self.now.family) (run_start self.now.family.set self.now.number (run + 1)) }
        ensures number { result < run_size_in self.now.family self.now.number run }
        ensures mark { local_marks_in self.now.family self.now.number run result ≡ true }
        ensures left { marks_below (local_marks_in self.now.family self.now.number run) result ≡ left }
    {
        let first = self.first_run(run);
        match first.kind {
            RunKind::Mixed => self.mixed[first.table].number_at(left),
            // Its lions say that each of its positions is one, since there is one.
            _ => left,
        }
    }

    // The place in its run of the position of that number.
    fn place_at(&self, run: u64, number: u64) -> u64
        requires run { run < runs_in self.now.family.set self.now.number }
        requires number { number < run_size_in self.now.family self.now.number run }
        ensures { IsNumbered self.now.family self.now.number run number result }
    {
        match self.family.profile {
            Profile::A => number,
            Profile::B => place_of_number(&self.on_board, run % LIONS, number),
        }
    }
}

// The number of a run as one of 32 bits, which is divided in fewer steps.
fn short(run: u64) -> u64
    requires { run ≤ 2 ^ 12 }
    ensures { result ≡ run }
{
    u64::from(run as u32)
}

// The digits of each run of the block.
//
// # Errors
//
// `Memory`.
fn all_digits(
    alloc: Global,
    set: PieceSet,
    block: u64,
    on_board: &PerKind,
) -> Result<Vec<RunDigits>, Memory>
    requires block { block < product (block_bases set) }
    requires on_board { on_board.now ≡ digits_of (block_bases set) block }
    ensures long { IfOk result (λ digits. vec_len digits ≡ runs_in set block) }
    ensures digits { IfOk result (λ digits. AreDigits set on_board.now (vec_len digits) digits.items) }
{
    let mut digits = Vec::new(alloc);
    for run in 0..block::count_runs(set, block) {
        digits.push(block::run_digits_in(set, on_board, run))?;
    }
    Ok(digits)
}

// The number of the table of the first hand's run of those lions; none is needed where these say its marks.
//
// # Errors
//
// `Memory`.
fn table_of(
    alloc: Global,
    family: Family,
    block: u64,
    lions: u64,
    mixed: &mut Vec<StretchTable>,
) -> Result<usize, Memory>
    requires block { block < product (block_bases family.set) }
    requires lions { lions < lion_pairs }
    ensures table { IfOk result (λ table. HasTable family block lions table mixed.new.items) }
    ensures runs { (count : ℕ) (runs : List FirstRun) → AreRuns family block count runs mixed.old.items
        → IfOk result (λ _. AreRuns family block count runs mixed.new.items) }
{
    match kind_of(lions) {
        RunKind::First => Ok(0),
        RunKind::Later => Ok(0),
        RunKind::Mixed => push_table(alloc, family, block, lions, mixed),
    }
}

// Appends the table of such a run.
//
// # Errors
//
// `Memory`.
fn push_table(
    alloc: Global,
    family: Family,
    block: u64,
    lions: u64,
    mixed: &mut Vec<StretchTable>,
) -> Result<usize, Memory>
    requires block { block < product (block_bases family.set) }
    requires lions { lions < lion_pairs }
    requires kind { run_kind lions ≡ Mixed }
    ensures table { IfOk result (λ table. HasTable family block lions table mixed.new.items) }
    ensures runs { (count : ℕ) (runs : List FirstRun) → AreRuns family block count runs mixed.old.items
        → IfOk result (λ _. AreRuns family block count runs mixed.new.items) }
{
    let number = mixed.len();
    let table = StretchTable::open(alloc, family, block, lions)?;
    mixed.push(table)?;
    Ok(number)
}

// How many classes the first hand's run of those lions has, of `size` places and with that table.
fn count_marks(
    family: Family,
    block: u64,
    lions: u64,
    size: u64,
    table: usize,
    mixed: &Vec<StretchTable>,
) -> u64
    requires block { block < product (block_bases family.set) }
    requires lions { lions < lion_pairs }
    requires size { size ≡ run_size family.set block }
    requires table { HasTable family block lions table mixed.now.items }
    ensures { marks_below (is_marked family) (run_start family.set block lions) + result ≡ marks_below (is_marked family) (run_start family.set block (lions + 1)) }
{
    match kind_of(lions) {
        RunKind::First => count_before(family, block, lions, size),
        RunKind::Later => 0,
        RunKind::Mixed => mixed[table].count,
    }
}
