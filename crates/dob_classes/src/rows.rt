// What is known of the classes before a run of a block: the numbers of the block's row, and the one way in which these give how many classes stand before it.
ghost use Rattle.std.specs.Prelude.{◌≡◌, ◌<◌, ◌≤◌, ℕ};
ghost use Rattle.dob_pieces.specs.declared.profile.Family.{Family as AnyFamily};
ghost use Rattle.dob_classes.specs.BlockRows.{IsRowOf};
ghost use Rattle.dob_rank.specs.Families.{is_marked};
ghost use Rattle.dob_rank.specs.Marks.{marks_below};
ghost use Rattle.dob_rank.specs.Numbers.{product, block_bases};
ghost use Rattle.dob_rank.specs.Runs.{runs_in, run_start};

use dob_rank::runs::LIONS;

/// How many numbers a block's row has. The first 99 say for each run of the first hand how many classes stand before it in the block.
pub const ROW_LEN: usize = 101;

/// The place in a row of how many classes stand in all of a hand's runs.
pub const HAND_PLACE: usize = 99;

/// The place in a row of how many classes stand before the block.
pub const BEFORE_PLACE: usize = 100;

/// What a block's row says of one of its runs.
#[derive(Clone, Copy)]
pub struct Row {
    /// How many classes stand before the block.
    pub before: u64,
    /// How many classes stand in all runs of one hand.
    pub hand: u64,
    /// How many classes stand in a hand's runs before the one with the same lions as the run.
    pub run: u64,
}

impl Row {
    /// How many classes stand before that run, or before the end of the block's last: in each hand as many. By numbers that are no row's some
    /// number comes out, since sums and products wrap.
    pub fn before_run(self, run: u64) -> u64
        ensures { (family : AnyFamily) (block : ℕ) → block < product (block_bases family.set) → run ≤ runs_in family.set block
            → IsRowOf family block run self → result ≡ marks_below (is_marked family) (run_start family.set block run) }
    {
        let hands = run / LIONS;
        let runs = hands.wrapping_mul(self.hand).wrapping_add(self.run);
        self.before.wrapping_add(runs)
    }
}
