// Laws of what is reached, each the contract of a function that does nothing.
ghost use Rattle.dob_reach.specs.Plays.{ClassesAreMet, PlaysMeetClasses, ReachedIsClosed, ReachedIsLeast};

/// The class from which a search goes on is reached, and so is each class to which one leads that is reached.
pub fn reached_is_closed()
    ensures { ReachedIsClosed }
{}

/// Nothing else is reached: a set of classes that is closed so has all of them.
pub fn reached_is_least()
    ensures { ReachedIsLeast }
{}

/// Each play from a position, of however many moves, ends in a member of a class that is reached in as many.
pub fn plays_meet_classes()
    ensures { PlaysMeetClasses }
{}

/// To a member of each class that is reached some play leads, in as many moves. That one leads to each of its two members isn't said.
pub fn classes_are_met()
    ensures { ClassesAreMet }
{}
