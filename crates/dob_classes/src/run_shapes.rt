// What the places of a run have in common. It is found once for all steps of a walk over the run.
ghost use Rattle.std.specs.Prelude.{◌<◌};
ghost use Rattle.dob_classes.specs.RunShapes.{IsShape};
ghost use Rattle.dob_rank.specs.Numbers.{product, block_bases};
ghost use Rattle.dob_rank.specs.Runs.{runs_in};

use dob_pieces::PieceSet;
use dob_rank::block::{self, PerKind};
use dob_rank::runs::RunDigits;

/// What the places of a run have in common.
#[derive(Clone, Copy)]
pub(crate) struct RunShape {
    /// How many pieces of each kind stand on the board, and in how many ways their squares are chosen.
    pub(crate) on_board: PerKind,
    pub(crate) choices: PerKind,
    /// The bases of the digits that give a place.
    pub(crate) bases: [u64; 6],
    /// The digits of the run.
    pub(crate) digits: RunDigits,
}

pub(crate) fn shape_of(set: PieceSet, block: u64, run: u64) -> RunShape
    requires block { block < product (block_bases set) }
    requires run { run < runs_in set block }
    ensures { IsShape set block run result }
{
    let on_board = block::numbers_in(set, block);
    let choices = block::choices_in(&on_board);
    let bases = block::local_bases_in(set, block);
    let digits = block::run_digits_in(set, &on_board, run);
    RunShape {
        on_board,
        choices,
        bases,
        digits,
    }
}
