// How many classes a family has, without a table of them: no memory is taken.
ghost use Rattle.std.specs.Prelude.{◌≡◌, ◌<◌, ◌^◌};
ghost use Rattle.dob_rank.specs.Families.{HasClasses, classes_of};

use crate::class_numbers::classes_before_block;
use dob_pieces::Family;
use dob_rank::block;

/// How many classes the family has. It takes no memory, and some hundredths of a second for two pieces of each kind.
pub fn count_classes(family: Family) -> u64
    ensures count { HasClasses family result }
    ensures number { result ≡ classes_of family }
    ensures bound { result < 2 ^ 31 }
{
    let end = block::blocks(family.set);
    classes_before_block(family, end)
}
