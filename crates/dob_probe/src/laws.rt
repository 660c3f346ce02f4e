// Laws of lines, each the contract of a function that does nothing.
ghost use Rattle.dob_probe.specs.Laws.{LinesAreBest, NoneBreaks, LinesDontBreak, OneBreak};

/// By the value table each line is the best line: the line by the values by definition.
pub fn lines_are_best()
    ensures { LinesAreBest }
{}

/// By the value table no position's line breaks off.
pub fn none_breaks()
    ensures { NoneBreaks }
{}

/// Where a position has a line, it breaks off nowhere.
pub fn lines_dont_break()
    ensures { LinesDontBreak }
{}

/// A line breaks off at one class at most.
pub fn one_break()
    ensures { OneBreak }
{}
