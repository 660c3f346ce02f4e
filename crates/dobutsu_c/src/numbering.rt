// By what the number of a position's class is found.
ghost use Rattle.std.specs.Prelude.{◌≡◌};
ghost use Rattle.dob_rank.specs.Families.{IsPositionOf, class_number};
ghost use Rattle.dobutsu_c.specs.ByIndex.{IsRight};

use dob_classes::class_number;
use dob_index::class_by;
use dob_pieces::{Family, Position};

/// By what the number of a position's class is found.
#[derive(Clone, Copy)]
pub(crate) enum Numbering<'a> {
    /// The classes before it are counted.
    Counted,
    /// Numbers that ought to be an index of the family.
    Index(&'a [u64]),
}

impl Numbering<'_> {
    /// The number of the class of a position of the family; some number by numbers that are no index of it.
    pub(crate) fn class_of(self, family: Family, position: &Position) -> u64
        requires { IsPositionOf family position.now.setup }
        ensures { IsRight self.entry family → result ≡ class_number family position.now.setup }
    {
        match self {
            Numbering::Counted => class_number(family, position),
            Numbering::Index(words) => class_by(family, words, position),
        }
    }
}
