// Laws of the rules. Each function's contract is one law, of every position and every move; a proof that calls
// the function may use the law. They do nothing when they run.
ghost use Rattle.dob_moves.specs.Laws.{OutcomesAreLegal, OutcomesKeepPieces, MovesHaveOneOutcome, StatusesExclude, StatusesMirror};
ghost use Rattle.dob_moves.specs.Laws.{OutcomesMirror, StepsExclude, LionsAreNotTaken, ListsHaveMoves};
ghost use Rattle.dob_moves.specs.Laws.{OutcomesAreAllowed, ProfilesShareStatuses, MovesAreFew};

/// Every outcome of a move of an open position is a position.
#[tactic(auto, using(crate::proofs::Outcomes::outcomes))]
pub fn outcomes_are_legal()
    ensures { OutcomesAreLegal }
{}

/// Every outcome of a move by the rules of a profile is a position of that profile, where the position before is one.
#[tactic(auto, using(crate::proofs::Kept::kept))]
pub fn outcomes_are_allowed()
    ensures { OutcomesAreAllowed }
{}

/// A position has the same status by the rules of each profile: where profile B forbids a drop, there is another one.
#[tactic(auto, using(crate::proofs::Shared::share_status))]
pub fn profiles_share_statuses()
    ensures { ProfilesShareStatuses }
{}

/// No move changes the piece set: of each kind there are as many pieces as before, board and hands together.
#[tactic(auto, using(crate::proofs::Outcomes::outcomes))]
pub fn outcomes_keep_pieces()
    ensures { OutcomesKeepPieces }
{}

/// A move of a position has one outcome.
#[tactic(auto, using(crate::proofs::Outcomes::outcomes))]
pub fn moves_have_one_outcome()
    ensures { MovesHaveOneOutcome }
{}

/// A position has at most one status.
#[tactic(auto, using(crate::proofs::Cases::one_status))]
pub fn statuses_exclude()
    ensures { StatusesExclude }
{}

/// The mirror image of a position has the position's status.
#[tactic(auto, using(crate::proofs::ProfileMoves::images))]
pub fn statuses_mirror()
    ensures { StatusesMirror }
{}

/// The mirror image of a move leads from the mirror image of a position to the mirror image of its outcome.
#[tactic(auto, using(crate::proofs::Mirrors::images))]
pub fn outcomes_mirror()
    ensures { OutcomesMirror }
{}

/// Of all steps from one square to another at most one can go: the position says which piece steps, whether it
/// catches and whether it grows.

pub fn steps_exclude()
    ensures { StepsExclude }
{}

/// A step onto the enemy lion isn't a move.
#[tactic(auto, using(crate::proofs::Cases::lion_not_moved, crate::proofs::ByProfile::can_go))]
pub fn lions_are_not_taken()
    ensures { LionsAreNotTaken }
{}

/// The list of moves that definitions compute has each move of an open position by the rules of a profile, once, in the
/// move order, and none of any other position.
pub fn lists_have_moves()
    ensures { ListsHaveMoves }
{}

/// A position has at most 63 moves by the rules of each profile.
pub fn moves_are_few()
    ensures { MovesAreFew }
{}
