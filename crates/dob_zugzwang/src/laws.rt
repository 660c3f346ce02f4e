// Laws of zugzwangs, each the contract of a function that does nothing.
ghost use Rattle.dob_zugzwang.specs.Laws.{EachIsListed, IsMutual, IsRightByValues, TurnedTwice, TurnsArePositions};

/// The turn of an open position is a position, of the same pieces and by the same rules.
pub fn turns_are_positions()
    ensures { TurnsArePositions }
{}

/// The turn of a position's turn is the position.
#[tactic(auto, using(crate::proofs::Promised::twice))]
pub fn turned_twice()
    ensures { TurnedTwice }
{}

/// A position is a zugzwang just where its turn is one, with its values exchanged.
pub fn is_mutual()
    ensures { IsMutual }
{}

/// By the value table the zugzwangs are those of the values by definition.
pub fn right_by_values()
    ensures { IsRightByValues }
{}

/// Each zugzwang's class stands in one of the pairs that are listed.
pub fn each_is_listed()
    ensures { EachIsListed }
{}
