// Laws of ranks and classes, each the contract of a function that does nothing.
ghost use Rattle.dob_classes.specs.Laws.{OneClass, OneRepresentative, RanksKeepOrder, ClassesKeepOrder, RowsAreRepresentatives};

/// A position of a family is in one class, and that class has one number.
pub fn one_class()
    ensures { OneClass }
{}

/// A class number of a family has one representative.
pub fn one_representative()
    ensures { OneRepresentative }
{}

/// Of two positions of a family the earlier has the lower rank.
pub fn ranks_keep_order()
    ensures { RanksKeepOrder }
{}

/// Of two representatives of a family the earlier has the lower class number.
pub fn classes_keep_order()
    ensures { ClassesKeepOrder }
{}

/// The setup that stands for a class number in a family's row of classes is the representative of that number.
pub fn rows_are_representatives()
    ensures { RowsAreRepresentatives }
{}
