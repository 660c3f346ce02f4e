// Representatives: the earlier of a position and its mirror image.
ghost use Rattle.dob_pieces.specs.Profiles.{IsAllowed};
ghost use Rattle.dob_rank.specs.Order.{RepresentativeOf};

use dob_pieces::{Position, Profile};
use dob_rank::rank;

/// The earlier of a position of the profile and its mirror image.
pub fn representative(profile: Profile, position: &Position) -> Position
    requires { IsAllowed profile position.now.setup }
    ensures earlier { RepresentativeOf position.now.setup result.setup }
    ensures allowed { IsAllowed profile result.setup }
{
    let image = position.mirrored();
    if rank(profile, &image) < rank(profile, position) {
        image
    } else {
        *position
    }
}
