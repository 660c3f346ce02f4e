// Laws of shuffles: the body of each is empty.
ghost use Rattle.dob_shuffle.specs.Laws.{IsOneToOne};

use crate::shuffle::Shuffle;

/// Each place has one number, and each number one place.
pub fn is_one_to_one(shuffle: &Shuffle)
    ensures { IsOneToOne shuffle.now }
{}
