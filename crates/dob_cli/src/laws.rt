// Laws of what the program does, each the contract of a function that does nothing.
ghost use Rattle.dob_cli.specs.Laws.{BuildThenProbe, WordsAreAnswered};

use dob_shelf::Shelf;

/// Words that ask for a value, a build or a probe get exactly that.
pub fn words_are_answered<S: Shelf>(before: &S, after: &S)
    ensures { WordsAreAnswered (S.state before.now) (S.state after.now) }
{}

/// After a build that was done, over a shelf whose bytes are known, `probe` of its file gives the value that the position has
/// by definition.
pub fn build_then_probe<S: Shelf>(before: &S, built: &S, probed: &S)
    ensures { BuildThenProbe (S.state before.now) (S.state built.now) (S.state probed.now) }
{}
