// The classes of families of profile A, by the names of their sets.
ghost use Rattle.std.specs.Prelude.{◌≡◌};
ghost use Rattle.dob_pieces.specs.declared.profile.Profile.TheVariants.{A};

use dob_classes::Classes;
use dob_pieces::{Family, PieceSet, Profile};
use std::alloc::Global;
use std::process::Abort;

/// The classes of the family of the set of that name.
pub(crate) fn classes_of(rt: &impl Abort, alloc: Global, name: &str) -> Classes
    ensures { result.family.profile ≡ A }
{
    let family = Family {
        set: PieceSet::read(name).expect(rt, "a set"),
        profile: Profile::A,
    };
    Classes::open(alloc, family).expect(rt, "classes")
}
