// The piece that a move caught: where it stood before, and whose hand holds it now.
ghost use Rattle.std.specs.Prelude.{◌≡◌};
ghost use Rattle.dob_unmove.specs.Undoes.{CanGiveBack, without_caught, enemy_cell, may_give_back};
ghost use Rattle.dob_unmove.specs.Walks.{holds_caught};

use crate::undo::RetroMove;
use dob_pieces::{Hand, Kind, Piece, Profile, Side};

/// Whether the profile lets the piece that was caught stand where it was: in profile B no chick on row 1.
pub fn may_give_back(profile: Profile, undo: &RetroMove) -> bool
    ensures { result ≡ may_give_back profile undo.now }
{
    match undo {
        RetroMove::Unstep { to, caught, .. } => profile.may_stand(*to, enemy_cell(*caught)),
        RetroMove::Unput { .. } => true,
    }
}

/// An enemy piece of that kind, if there is one.
pub fn enemy_cell(caught: Option<Kind>) -> Option<Piece>
    ensures { result ≡ enemy_cell caught }
{
    caught.map(|kind| Piece {
        side: Side::Enemy,
        kind,
    })
}

/// The hand without the piece that was caught, if there is one.
pub fn without_caught(hand: Hand, caught: Option<Kind>) -> Hand
    requires { CanGiveBack hand caught }
    ensures { result ≡ without_caught hand caught }
{
    match caught {
        None => hand,
        Some(kind) => match kind.in_hand() {
            None => hand,
            Some(taken) => hand.with_one_less(taken),
        },
    }
}

/// Whether the hand holds what a caught piece of that kind became.
pub fn holds_caught(hand: &Hand, caught: Kind) -> bool
    ensures { result ≡ holds_caught hand.now caught }
{
    match caught.in_hand() {
        None => false,
        Some(taken) => hand.count(taken) > 0,
    }
}
