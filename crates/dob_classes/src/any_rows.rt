// Class numbers by any numbers, as they come from a caller in another language.
ghost use Rattle.std.specs.Prelude.{◌≡◌, ◌<◌, ℕ, length};
ghost use Rattle.dob_pieces.specs.declared.profile.Family.{Family as AnyFamily};
ghost use Rattle.dob_classes.specs.BlockRows.{IsRow, IsRowOf};
ghost use Rattle.dob_rank.specs.Families.{IsPositionOf, IsInClass, is_marked, classes_of, class_number as number_of_class};
ghost use Rattle.dob_rank.specs.Marks.{marks_below};
ghost use Rattle.dob_rank.specs.Numbers.{block_of, rank_of_set};

use crate::class_numbers::classes_in_run;
use crate::representatives::representative;
use crate::rows::{BEFORE_PLACE, HAND_PLACE, ROW_LEN, Row};
use dob_pieces::{Family, Position};
use dob_rank::runs::LIONS;
use dob_rank::set_ranks::spot_of;

/// The number of the class of a position of the family, where the 101 numbers are the row of its block, as `write_row` writes it. By other numbers
/// some number comes out: nothing but them is read, and sums and products wrap.
pub fn class_number_by_any(family: Family, row: &[u64], position: &Position) -> u64
    requires member { IsPositionOf family position.now.setup }
    requires room { length row.now ≡ ROW_LEN }
    ensures class { IsRow family (block_of family.set position.now.setup) row.now → IsInClass family position.now.setup result }
    ensures number { IsRow family (block_of family.set position.now.setup) row.now → result ≡ number_of_class family position.now.setup }
    ensures bound { IsRow family (block_of family.set position.now.setup) row.now → result < classes_of family }
{
    number_by_any(family, row, &representative(family.profile, position))
}

// How many representatives stand before a position of the family, where the numbers are its block's row.
fn number_by_any(family: Family, row: &[u64], position: &Position) -> u64
    requires member { IsPositionOf family position.now.setup }
    requires room { length row.now ≡ ROW_LEN }
    ensures { IsRow family (block_of family.set position.now.setup) row.now → result ≡ marks_below (is_marked family) (rank_of_set family.set position.now.setup) }
{
    let (block, spot) = spot_of(family.set, position);
    let runs = row_at(row, spot.run).before_run(spot.run);
    let places = classes_in_run(family, block, spot.run, spot.local);
    runs.wrapping_add(places)
}

// What the numbers say of a run, where they are its block's row.
fn row_at(row: &[u64], run: u64) -> Row
    requires { length row.now ≡ ROW_LEN }
    ensures { (family : AnyFamily) (block : ℕ) → IsRow family block row.now → IsRowOf family block run result }
{
    Row {
        before: row[BEFORE_PLACE],
        hand: row[HAND_PLACE],
        run: row[(run % LIONS) as usize],
    }
}
