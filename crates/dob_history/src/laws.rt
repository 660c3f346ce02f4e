// Laws of histories, each the contract of a function that does nothing.
ghost use Rattle.dob_history.specs.Quiet.{QuietIsRight};
ghost use Rattle.dob_history.specs.Laws.{NothingIsKnown, NextItemFits, NextItemTeachesOne, LawfulStays, FallsStay, NextItemIsShort, LawfulIsRight};

/// Nodes that have nothing left to expand, to send or to apply, and whose classes have the values that follow from
/// what the copies of their moves know, hold the value table.
pub fn law_quiet()
    ensures { QuietIsRight }
{}

/// Before anything is applied, a cell with all the moves of its class left sums up what their copies know.
#[tactic(auto, using(crate::proofs::Totals::start_sums))]
pub fn nothing_is_known()
    ensures { NothingIsKnown }
{}

/// In lawful nodes the next item that a node has to apply fits the cell of its class.
pub fn next_item_fits()
    ensures { NextItemFits }
{}

/// It teaches its class by one copy, which knew what the item says that was, and no other class.
#[tactic(auto, using(crate::proofs::Steps::learns_here, crate::proofs::Steps::still))]
pub fn next_item_teaches_one()
    ensures { NextItemTeachesOne }
{}

/// After it, and after the settlement that it makes, the nodes are lawful.
#[tactic(auto, using(crate::proofs::Steps::lawful_after))]
pub fn lawful_stays()
    ensures { LawfulStays }
{}

/// Each settlement then stands first in a list of settlements of different classes whose distances fall by one down to a win
/// in one ply or a loss in none, if each did before.
pub fn falls_stay()
    ensures { FallsStay }
{}

/// For fewer than 65,535 classes the next item doesn't go too deep.
pub fn next_item_is_short()
    ensures { NextItemIsShort }
{}

/// Lawful nodes that have applied all their items hold the value table.
pub fn lawful_is_right()
    ensures { LawfulIsRight }
{}
