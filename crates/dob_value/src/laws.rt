// Laws of tables, each the contract of a function that does nothing.
ghost use Rattle.dob_value.specs.Follows.{ConsistentIsRight};
ghost use Rattle.dob_value.specs.Bounds.{DistancesAreFew};

/// A table of a family in which each class's value follows from its status and its successors' values is the value
/// table: each class's entry is the value of each of its positions.
pub fn law_consistent()
    ensures { ConsistentIsRight }
{}

/// In the value table of a family no distance is above the number of classes.
pub fn distances_are_few()
    ensures { DistancesAreFew }
{}
