// Laws of the ring, each the contract of a function that does nothing.
ghost use Rattle.dob_safra.specs.Laws.{WordHasOneToken, StartIsLawful, MovedKeepsLawful, LawfulFits, AnnounceableIsQuiet, EndStays, EndIsSilent};

/// A word is that of one token at most.
pub fn word_has_one_token()
    ensures { WordHasOneToken }
{}

/// The start is lawful.
pub fn start_is_lawful()
    ensures { StartIsLawful }
{}

/// Each event leads from a lawful state to a lawful one, while no link has more than 2^40 posted batches.
#[tactic(auto, using(crate::proofs::Kept::moved_kept))]
pub fn moved_keeps_lawful()
    ensures { MovedKeepsLawful }
{}

/// In a lawful state the token has a word, and the sum that its node hands down is -2^48 to 2^48.
pub fn lawful_fits()
    ensures { LawfulFits }
{}

/// Where a lawful state is announceable, all nodes are white and each batch posted is taken.
pub fn announceable_is_quiet()
    ensures { AnnounceableIsQuiet }
{}

/// Once the end is announced it stays announced, all nodes stay white, and each batch posted stays taken.
#[tactic(auto, using(crate::proofs::Kept::end_stays))]
pub fn end_stays()
    ensures { EndStays }
{}

/// Once the end is announced no batch is posted and none is taken.
pub fn end_is_silent()
    ensures { EndIsSilent }
{}
