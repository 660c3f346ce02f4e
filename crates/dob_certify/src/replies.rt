// The move that a certificate gives.
ghost use Rattle.std.specs.Prelude.{◌≡◌};
ghost use Rattle.dob_moves.specs.Shown.{setup_on};
ghost use Rattle.dob_rank.specs.Families.{IsPositionOf};
ghost use Rattle.dob_certificate.specs.Lost.{SupportsAllLost};
ghost use Rattle.dob_certify.specs.Replies.{IsReply, IsRight, IsShortest, loss, shorter};

use dob_certificate::{ByClass, Entries, said_lost};
use dob_classes::Classes;
use dob_moves::{Move, Outcome, PositionBoard, Walk, first_catch};
use dob_pieces::Position;
use dob_value::outcome_at;

/// What a list of lost classes says of a position.
#[derive(Clone, Copy)]
pub enum Reply {
    /// The side to move wins by this move: it catches the lion, with 0 plies, or after it the other side is lost within `plies`.
    Win { played: Move, plies: u16 },
    /// The side to move is lost within `plies`.
    Loss { plies: u16 },
}

// A move after which the other side is lost within `plies`.
#[derive(Clone, Copy)]
pub(crate) struct Lead {
    played: Move,
    plies: u16,
}

/// What the list says of the position, or None if it says nothing: of the position itself, and of all to which its moves lead. Where the lion can be
/// caught that is the first catch; else the first of the moves to a position that is lost within the fewest plies that the list says; else in how many
/// plies the position itself is lost.
pub fn reply_to(classes: &Classes, lost: &Entries, position: &Position) -> Option<Reply>
    requires member { IsPositionOf classes.now.family position.now.setup }
    requires supported { SupportsAllLost classes.now.family lost.now }
    ensures reply { IsReply classes.now.family lost.now position.now.setup result }
    ensures right { IsRight classes.now.family.profile position.now.setup result }
{
    found_reply(classes, lost, position)
}

// What the list says of the position.
fn found_reply(classes: &Classes, lost: &Entries, position: &Position) -> Option<Reply>
    requires { IsPositionOf classes.now.family position.now.setup }
    ensures { IsReply classes.now.family lost.now position.now.setup result }
{
    if let Some(played) = first_catch(position) {
        return Some(Reply::Win { played, plies: 0 });
    }
    let list = ByClass {
        classes,
        entries: lost,
    };
    let position = PositionBoard::of(position);
    match shortest(&list, &position) {
        Some(Lead { played, plies }) => Some(Reply::Win { played, plies }),
        None => loss(said_lost(classes.family, &list, &position)),
    }
}

// That the position is lost, if it is said to be.
fn loss(plies: Option<u16>) -> Option<Reply>
    ensures { result ≡ loss plies }
{
    match plies {
        Some(plies) => Some(Reply::Loss { plies }),
        None => None,
    }
}

// The first of the position's moves to one that is said to be lost within the fewest plies.
fn shortest(list: &ByClass, position: &PositionBoard) -> Option<Lead>
    requires { IsPositionOf list.now.classes.now.family (setup_on position.now.board) }
    ensures { IsShortest list.now.classes.now.family list.now.entries.now (setup_on position.now.board) result }
{
    let mut best = None;
    let family = list.classes.family;
    let mut walk = Walk::new();
    let _status = walk.start(family.profile, position);
    for place in 0..walk.len() {
        let Outcome { played, position } = outcome_at(family, &walk, place);
        let found = said_lost(family, list, &position);
        best = shorter(best, played, found);
    }
    best
}

// The better one of a lead and of a move to a position that is said to be lost within `found` plies.
fn shorter(best: Option<Lead>, played: Move, found: Option<u16>) -> Option<Lead>
    ensures { result ≡ shorter best played found }
{
    match (best, found) {
        (_, None) => best,
        (None, Some(plies)) => Some(Lead { played, plies }),
        (Some(lead), Some(plies)) => {
            if plies < lead.plies {
                Some(Lead { played, plies })
            } else {
                best
            }
        }
    }
}
