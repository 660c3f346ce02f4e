// Rows of numbers, one for each block, by which the number of a class is found at once. The caller keeps them, so no memory is taken.
ghost use Rattle.std.specs.Prelude.{◌≡◌, ◌<◌, length};
ghost use Rattle.dob_rank.specs.Families.{IsPositionOf, is_marked};
ghost use Rattle.dob_classes.specs.BlockRows.{IsRow};
ghost use Rattle.dob_rank.specs.Marks.{marks_below};
ghost use Rattle.dob_rank.specs.Numbers.{product, block_bases, block_of, start_of};

use crate::class_numbers::{classes_before_block, classes_in_run};
use crate::rows::{BEFORE_PLACE, ROW_LEN};
use dob_pieces::{Family, PieceSet, Position};
use dob_rank::block;
use dob_rank::runs::LIONS;
use dob_rank::set_ranks::spot_of;

// Writes the row of a block with `before` classes before it: how many stand in the first hand's runs before each of them and before the end of
// the last, and then how many before the block.
fn class_row(family: Family, block: u64, before: u64, row: &mut [u64])
    requires block { block < product (block_bases family.set) }
    requires before { before ≡ marks_below (is_marked family) (start_of family.set block) }
    requires room { length row.now ≡ ROW_LEN }
    ensures { IsRow family block row.new }
{
    let size = block::run_size_in(family.set, block);
    let mut count = 0;
    row[BEFORE_PLACE] = before;
    row[0] = 0;
    for run in 0..LIONS {
        count += classes_in_run(family, block, run, size);
        row[run as usize + 1] = count;
    }
}

/// How many blocks a set has.
pub fn count_blocks(set: PieceSet) -> u64
    ensures { result ≡ product (block_bases set) }
{
    block::blocks(set)
}

/// The number of the block of a position of the family.
pub fn block_number(family: Family, position: &Position) -> u64
    requires { IsPositionOf family position.now.setup }
    ensures { result ≡ block_of family.set position.now.setup }
{
    spot_of(family.set, position).0
}

/// Writes the row of a block. It takes some hundredths of a second for two pieces of each kind.
pub fn write_row(family: Family, block: u64, row: &mut [u64])
    requires block { block < product (block_bases family.set) }
    requires room { length row.now ≡ ROW_LEN }
    ensures { IsRow family block row.new }
{
    let before = classes_before_block(family, block);
    class_row(family, block, before, row);
}
