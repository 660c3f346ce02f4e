// Laws of cells, each the contract of a function that does nothing.
ghost use Rattle.dob_share.specs.Laws.{NeverWorse, SumsUpWhatIsKnown};

/// An item that fits its cell never makes the cell's value worse.
#[tactic(auto, using(crate::proofs::Growing::no_worse))]
pub fn never_worse()
    ensures { NeverWorse }
{}

/// Where a cell sums up what is known of its moves, and something better becomes known of one of them, the change fits the
/// cell, and the cell sums up what is then known.
pub fn sums_up_what_is_known()
    ensures { SumsUpWhatIsKnown }
{}
