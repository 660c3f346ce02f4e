// What is listed of a class: the openings of all classes, or of some, in segments.
ghost use Rattle.std.specs.Prelude.{◌≡◌, ◌<◌, length};
ghost use Rattle.dob_share.specs.Openings.{opening_of};

use crate::opening::Opening;
use dob_lists::Segments;

/// What is listed of the class: the one way to what the openings of all classes say of one of them.
pub fn opening_at(openings: &Segments<Opening>, class: u64) -> Opening
    requires { class < length openings.now }
    ensures { result ≡ opening_of openings.now class }
{
    openings.get(class)
}
