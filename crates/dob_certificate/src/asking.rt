// What a list of either kind is asked of a position: whether it takes it for lost, by what it says; for won, by a reply; for lost, whatever is played.
ghost use Rattle.std.specs.Prelude.{◌≡◌, ◌≤◌, ◌<◌, ◌↔◌, true, false, length, IsTrue, MatchBool};
ghost use Rattle.dob_moves.specs.declared.position_status.Status.{Status};
ghost use Rattle.dob_moves.specs.MoveWalks.{IsWalk};
ghost use Rattle.dob_moves.specs.Shown.{setup_on};
ghost use Rattle.dob_moves.specs.Statuses.{HasStatus};
ghost use Rattle.dob_rank.specs.Families.{IsPositionOf};
ghost use Rattle.dob_certificate.specs.Ascending.{listed_entry};
ghost use Rattle.dob_certificate.specs.Asked.{FindsLost, FindsWon, TakesForLost, plies_later};
ghost use Rattle.dob_certificate.specs.Held.{IsListedBeyond, IsSafe, IsSaidHeld};
ghost use Rattle.dob_certificate.specs.Lists.{Supports};
ghost use Rattle.dob_certificate.specs.Lost.{IsSaidLost, SaysLost};
ghost use Rattle.dob_certificate.specs.Walks.{AllLead, SomeLeads};

use crate::entry::EVER;
use crate::list_kind::ListKind;
use crate::lookup::Lookup;
use dob_moves::{PositionBoard, Status, Walk};
use dob_pieces::Family;
use dob_value::outcome_at;

/// Whether a list of that kind shows a position to be lost within `plies`: by a lost list it is lost, by a held list it isn't shown not to be.
#[derive(Clone, Copy)]
pub(crate) struct LossQuestion {
    pub(crate) kind: ListKind,
    pub(crate) plies: u16,
}

/// The fewest plies within which the list says that the position is lost, or that shows at once; `None` if it isn't said.
pub fn said_lost<L: Lookup>(family: Family, lost: &L, position: &PositionBoard) -> Option<u16>
    requires list { L.stands lost.now family }
    requires member { IsPositionOf family (setup_on position.now.board) }
    ensures { SaysLost family (L.entries_of lost.now) (setup_on position.now.board) result }
{
    match position.status(family.profile) {
        Status::Caught => None,
        Status::Tried | Status::Stuck => Some(0),
        Status::Open => lost.plies_for(family, position),
    }
}

/// Whether the list says that the position is lost within `plies`, or that shows at once.
pub(crate) fn is_said_lost<L: Lookup>(
    family: Family,
    lost: &L,
    plies: u16,
    position: &PositionBoard,
) -> bool
    requires list { L.stands lost.now family }
    requires member { IsPositionOf family (setup_on position.now.board) }
    ensures { IsTrue result ↔ IsSaidLost family (L.entries_of lost.now) plies (setup_on position.now.board) }
{
    match said_lost(family, lost, position) {
        Some(fewest) => fewest <= plies,
        None => false,
    }
}

/// Whether the list says that the position isn't lost within `plies`, or that shows at once.
pub(crate) fn is_said_held<L: Lookup>(
    family: Family,
    held: &L,
    plies: u16,
    position: &PositionBoard,
) -> bool
    requires list { L.stands held.now family }
    requires member { IsPositionOf family (setup_on position.now.board) }
    ensures { IsTrue result ↔ IsSaidHeld family (L.entries_of held.now) plies (setup_on position.now.board) }
{
    match position.status(family.profile) {
        Status::Caught => true,
        Status::Tried | Status::Stuck => false,
        Status::Open => plies <= 1 || is_listed_beyond(family, held, plies, position),
    }
}

// Whether the list has the position's class with at least `plies`.
fn is_listed_beyond<L: Lookup>(
    family: Family,
    held: &L,
    plies: u16,
    position: &PositionBoard,
) -> bool
    requires list { L.stands held.now family }
    requires member { IsPositionOf family (setup_on position.now.board) }
    ensures { IsTrue result ↔ IsListedBeyond family (L.entries_of held.now) plies (setup_on position.now.board) }
{
    match held.plies_for(family, position) {
        Some(found) => plies <= found,
        None => false,
    }
}

// Whether the list takes the position for lost.
fn takes_for_lost<L: Lookup>(
    family: Family,
    list: &L,
    question: LossQuestion,
    position: &PositionBoard,
) -> bool
    requires list { L.stands list.now family }
    requires member { IsPositionOf family (setup_on position.now.board) }
    ensures { TakesForLost question.kind family (L.entries_of list.now) question.plies result (setup_on position.now.board) }
{
    match question.kind {
        ListKind::Lost => is_said_lost(family, list, question.plies, position),
        ListKind::Held => !is_said_held(family, list, question.plies, position),
    }
}

// Whether some move of an open position leads to what is taken for lost.
fn has_reply<L: Lookup>(
    family: Family,
    list: &L,
    question: LossQuestion,
    position: &PositionBoard,
    replies: &Walk,
) -> bool
    requires list { L.stands list.now family }
    requires member { IsPositionOf family (setup_on position.now.board) }
    requires goes_on { HasStatus family.profile (setup_on position.now.board) Status.Open }
    requires replies { IsWalk family.profile (setup_on position.now.board) replies.now }
    ensures { MatchBool result
        (SomeLeads family.profile (setup_on position.now.board) (TakesForLost question.kind family (L.entries_of list.now) question.plies true))
        (AllLead family.profile (setup_on position.now.board) (TakesForLost question.kind family (L.entries_of list.now) question.plies false)) }
{
    for place in 0..replies.len() {
        let reply = outcome_at(family, replies, place);
        if takes_for_lost(family, list, question, &reply.position) {
            return true;
        }
    }
    false
}

/// Whether the list shows the position to be won: the side to move catches the lion, or some move leads to what it takes for lost. The walk over
/// the replies is room for them.
pub(crate) fn finds_won<L: Lookup>(
    replies: &mut Walk,
    family: Family,
    list: &L,
    question: LossQuestion,
    position: &PositionBoard,
) -> bool
    requires list { L.stands list.now family }
    requires member { IsPositionOf family (setup_on position.now.board) }
    ensures { FindsWon question.kind family (L.entries_of list.now) question.plies result (setup_on position.now.board) }
{
    let status = replies.start(family.profile, position);
    match status {
        Status::Caught => true,
        Status::Tried | Status::Stuck => false,
        Status::Open => has_reply(family, list, question, position, replies),
    }
}

// Whether each move of an open position leads to what is found to be won.
fn are_all_answered<L: Lookup>(
    family: Family,
    list: &L,
    question: LossQuestion,
    position: &PositionBoard,
    moves: &Walk,
) -> bool
    requires list { L.stands list.now family }
    requires member { IsPositionOf family (setup_on position.now.board) }
    requires goes_on { HasStatus family.profile (setup_on position.now.board) Status.Open }
    requires moves { IsWalk family.profile (setup_on position.now.board) moves.now }
    ensures { MatchBool result
        (AllLead family.profile (setup_on position.now.board) (FindsWon question.kind family (L.entries_of list.now) question.plies true))
        (SomeLeads family.profile (setup_on position.now.board) (FindsWon question.kind family (L.entries_of list.now) question.plies false)) }
{
    let mut replies = Walk::new();
    for place in 0..moves.len() {
        let outcome = outcome_at(family, moves, place);
        if !finds_won(&mut replies, family, list, question, &outcome.position) {
            return false;
        }
    }
    true
}

// What is asked of the positions two plies later: by a held list ever where ever is asked.
fn two_plies_later(question: LossQuestion) -> LossQuestion
    requires { 2 ≤ question.plies }
    ensures kind { result.kind ≡ question.kind }
    ensures plies { result.plies ≡ plies_later question.kind question.plies }
{
    let plies = match question.kind {
        ListKind::Held if question.plies == EVER => EVER,
        _ => question.plies - 2,
    };
    LossQuestion {
        kind: question.kind,
        plies,
    }
}

// Whether the list shows the position to be lost: it has lost, or each move leads to what is found to be won two plies earlier.
fn finds_lost<L: Lookup>(
    family: Family,
    list: &L,
    question: LossQuestion,
    position: &PositionBoard,
) -> bool
    requires list { L.stands list.now family }
    requires member { IsPositionOf family (setup_on position.now.board) }
    ensures { FindsLost question.kind family (L.entries_of list.now) question.plies result (setup_on position.now.board) }
{
    let mut moves = Walk::new();
    match moves.start(family.profile, position) {
        Status::Caught => false,
        Status::Tried | Status::Stuck => true,
        Status::Open => {
            if question.plies < 2 {
                false
            } else {
                let later = two_plies_later(question);
                are_all_answered(family, list, later, position, &moves)
            }
        }
    }
}

/// Whether a list of that kind supports the entry at that place: its class is one of the family's, whose representative a lost list finds lost and a held one
/// doesn't.
pub(crate) fn supports_at<L: Lookup>(family: Family, list: &L, kind: ListKind, place: usize) -> bool
    requires list { L.stands list.now family }
    requires within { place < length (L.entries_of list.now) }
    ensures { IsTrue result ↔ Supports kind family (L.entries_of list.now) (listed_entry (L.entries_of list.now) place) }
{
    match list.entry_at(family, place) {
        Some((position, plies)) => {
            let question = LossQuestion { kind, plies };
            let lost = finds_lost(family, list, question, &position);
            match kind {
                ListKind::Lost => lost,
                ListKind::Held => !lost,
            }
        }
        None => false,
    }
}

/// Whether the lion can't be caught, and each move leads to a position that is said not to be lost within `plies`.
pub(crate) fn is_safe<L: Lookup>(
    family: Family,
    held: &L,
    plies: u16,
    position: &PositionBoard,
) -> bool
    requires list { L.stands held.now family }
    requires member { IsPositionOf family (setup_on position.now.board) }
    ensures { IsTrue result ↔ IsSafe family (L.entries_of held.now) plies (setup_on position.now.board) }
{
    let question = LossQuestion {
        kind: ListKind::Held,
        plies,
    };
    !finds_won(&mut Walk::new(), family, held, question, position)
}
