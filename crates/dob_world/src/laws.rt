// Laws of worlds, each the contract of a function that does nothing.
ghost use Rattle.dob_world.specs.Laws.{HappeningKeepsAll, EventsKeepAll, HappeningKeepsMatch, ListsAreBeginnings, OwnItemFits, TakenItemFits};
ghost use Rattle.dob_world.specs.Laws.{RestIsRight, EndIsRest, RestStays, EndIsSilent, StillIsEnded, HeadlineHolds};
ghost use Rattle.dob_world.specs.Links.{LinksKeepOrder};

/// Over any calls of an empty link, the batches taken in are those handed out followed by those waiting, in order.
pub fn links_keep_order()
    ensures { LinksKeepOrder }
{}

/// Each event leaves a lawful and linked world lawful and linked.
#[tactic(auto, using(crate::proofs::Kept::happening_keeps_all))]
pub fn happening_keeps_all()
    ensures { HappeningKeepsAll }
{}

/// So do events one after another, done or skipped.
#[tactic(auto, using(crate::proofs::Kept::events_keep_all))]
pub fn events_keep_all()
    ensures { EventsKeepAll }
{}

/// Each event leaves a ring that matches its world matching it, while no link has more than 2^40 posted batches.
#[tactic(auto, using(crate::proofs::Kept::happening_keeps_match))]
pub fn happening_keeps_match()
    ensures { HappeningKeepsMatch }
{}

/// In a linked world what was sent over a link is a beginning of the sender's items, and what was applied is a beginning
/// of what was sent.
pub fn lists_are_beginnings()
    ensures { ListsAreBeginnings }
{}

/// In a lawful and linked world the first own item of a node fits its cell.
#[tactic(auto, using(crate::proofs::Kept::own_item_fits))]
pub fn own_item_fits()
    ensures { OwnItemFits }
{}

/// So does each item of the first batch of a link, once those before it are applied.
pub fn taken_item_fits()
    ensures { TakenItemFits }
{}

/// A lawful and linked world at rest has the value table.
pub fn rest_is_right()
    ensures { RestIsRight }
{}

/// Where the end may be announced, nothing is left to do.
#[tactic(auto, using(crate::proofs::Promise::end_is_rest))]
pub fn end_is_rest()
    ensures { EndIsRest }
{}

/// Where nothing is left to do, that stays: an event changes nothing of nodes and links.
#[tactic(auto, using(crate::proofs::Promise::rest_stays))]
pub fn rest_stays()
    ensures { RestStays }
{}

/// Once the end is announced nothing is left to do, and so no event can happen.
pub fn end_is_silent()
    ensures { EndIsSilent }
{}

/// Where no event of a round can happen, the end is announced.
pub fn still_is_ended()
    ensures { StillIsEnded }
{}

/// For every list of at most 2^40 events: what each owner has applied from a sender is a beginning of what that sender sent,
/// in its order and each update once; once the end is announced nothing more is sent or applied, and the values are those
/// of the game.
#[tactic(auto, using(crate::proofs::Promise::headline_holds))]
pub fn headline_holds()
    ensures { HeadlineHolds }
{}
