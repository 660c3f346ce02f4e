// Where a profile lets a piece be dropped.
ghost use Rattle.dob_pieces.specs.Masks.{IsMask};
ghost use Rattle.dob_moves.specs.Moves.{may_put};

use dob_pieces::{HandKind, Profile, SquareSet};

/// The squares on which the profile lets a piece of that kind be dropped, empty or not: a chick below row 4 in profile B, and any other anywhere.
pub(crate) fn squares_for(profile: Profile, kind: HandKind) -> SquareSet
    ensures { IsMask (may_put profile kind) result }
{
    match (profile, kind) {
        (Profile::A, _) => SquareSet::ALL,
        (Profile::B, HandKind::Chick) => SquareSet::ALL.but_not(SquareSet::FAR_ROW),
        (Profile::B, HandKind::Elephant) => SquareSet::ALL,
        (Profile::B, HandKind::Giraffe) => SquareSet::ALL,
    }
}
