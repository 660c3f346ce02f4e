// Laws of values, each the contract of a function that does nothing.
ghost use Rattle.std.specs.Prelude.{◌≡◌};
ghost use Rattle.dob_distance.specs.Depths.{WonStaysWon, LostStaysLost, NotWonAndLost, OneValue, MirrorsHaveOneOutlook, MirrorsHaveOneValue};
ghost use Rattle.dob_distance.specs.Codes.{ValuesHaveParity};

use crate::value::MAX_DISTANCE;

/// What is won within some number of plies is won within any greater number.
#[tactic(auto, using(crate::proofs::Depths::won_stays))]
pub fn won_stays_won()
    ensures { WonStaysWon }
{}

/// What is lost within some number of plies is lost within any greater number.
#[tactic(auto, using(crate::proofs::Depths::lost_stays))]
pub fn lost_stays_lost()
    ensures { LostStaysLost }
{}

/// No position is both won and lost.
#[tactic(auto, using(crate::proofs::Depths::won_not_lost))]
pub fn not_won_and_lost()
    ensures { NotWonAndLost }
{}

/// A position has at most one value.
#[tactic(auto, using(crate::proofs::Depths::at_most_one_value))]
pub fn one_value()
    ensures { OneValue }
{}

/// A position and its mirror image are won within the same numbers of plies, and lost within the same.
#[tactic(auto, using(crate::proofs::Images::one_outlook))]
pub fn mirrors_have_one_outlook()
    ensures { MirrorsHaveOneOutlook }
{}

/// The mirror image of a position has the position's value.
#[tactic(auto, using(crate::proofs::Images::one_value))]
pub fn mirrors_have_one_value()
    ensures { MirrorsHaveOneValue }
{}

/// Wins come at odd distances and losses at even ones.
#[tactic(auto, using(crate::proofs::Parity::values_have_parity))]
pub fn values_have_parity()
    ensures { ValuesHaveParity }
{}

/// The greatest distance is 65,534.
pub fn distances_end()
    ensures { MAX_DISTANCE ≡ 65534 }
{}
