// What a certificate claims of a position, and whether its lists show it.
ghost use Rattle.std.specs.Prelude.{◌↔◌, IsTrue};
ghost use Rattle.dob_moves.specs.Shown.{setup_on};
ghost use Rattle.dob_rank.specs.Families.{IsPositionOf};
ghost use Rattle.dob_certificate.specs.Claims.{ShowsWon, ShowsLoss, ShowsWin, ShowsDraw, ShowsValue, Show};

use crate::asking::{LossQuestion, finds_won, is_safe, is_said_held, is_said_lost};
use crate::entry::EVER;
use crate::list_kind::ListKind;
use crate::lookup::Lookup;
use dob_moves::{PositionBoard, Walk};
use dob_pieces::Family;
use dob_value::Value;

/// What is claimed of a position: its value, or that the side to move is lost, or has won, within N plies.
#[derive(Clone, Copy)]
pub enum Claim {
    Exactly(Value),
    LostWithin(u16),
    WonWithin(u16),
}

// Whether the list shows that the position is won within `plies`.
pub(crate) fn shows_won<L: Lookup>(
    family: Family,
    lost: &L,
    position: &PositionBoard,
    plies: u16,
) -> bool
    requires lost { L.stands lost.now family }
    requires member { IsPositionOf family (setup_on position.now.board) }
    ensures { IsTrue result ↔ ShowsWon family (L.entries_of lost.now) (setup_on position.now.board) plies }
{
    if plies == 0 {
        return false;
    }
    let question = LossQuestion {
        kind: ListKind::Lost,
        plies: plies - 1,
    };
    finds_won(&mut Walk::new(), family, lost, question, position)
}

// Whether the lists show that the position is a loss in `plies` plies.
fn shows_loss<L: Lookup>(
    family: Family,
    lost: &L,
    held: &L,
    position: &PositionBoard,
    plies: u16,
) -> bool
    requires lost { L.stands lost.now family }
    requires held { L.stands held.now family }
    requires member { IsPositionOf family (setup_on position.now.board) }
    ensures { IsTrue result ↔ ShowsLoss family (L.entries_of lost.now) (L.entries_of held.now) (setup_on position.now.board) plies }
{
    is_said_lost(family, lost, plies, position)
        && (plies == 0 || is_said_held(family, held, plies - 1, position))
}

// Whether the lists show that the position is a win in `plies` plies.
fn shows_win<L: Lookup>(
    family: Family,
    lost: &L,
    held: &L,
    position: &PositionBoard,
    plies: u16,
) -> bool
    requires lost { L.stands lost.now family }
    requires held { L.stands held.now family }
    requires member { IsPositionOf family (setup_on position.now.board) }
    ensures { IsTrue result ↔ ShowsWin family (L.entries_of lost.now) (L.entries_of held.now) (setup_on position.now.board) plies }
{
    if plies < 2 {
        return shows_won(family, lost, position, plies);
    }
    shows_won(family, lost, position, plies) && is_safe(family, held, plies - 2, position)
}

// Whether the list shows that the position is a draw.
fn shows_draw<L: Lookup>(family: Family, held: &L, position: &PositionBoard) -> bool
    requires held { L.stands held.now family }
    requires member { IsPositionOf family (setup_on position.now.board) }
    ensures { IsTrue result ↔ ShowsDraw family (L.entries_of held.now) (setup_on position.now.board) }
{
    is_said_held(family, held, EVER, position) && is_safe(family, held, EVER, position)
}

// Whether the lists show that value of the position.
fn shows_value<L: Lookup>(
    family: Family,
    lost: &L,
    held: &L,
    position: &PositionBoard,
    value: Value,
) -> bool
    requires lost { L.stands lost.now family }
    requires held { L.stands held.now family }
    requires member { IsPositionOf family (setup_on position.now.board) }
    ensures { IsTrue result ↔ ShowsValue family (L.entries_of lost.now) (L.entries_of held.now) (setup_on position.now.board) value }
{
    match value {
        Value::Loss(plies) => shows_loss(family, lost, held, position, plies),
        Value::Win(plies) => shows_win(family, lost, held, position, plies),
        Value::Draw => shows_draw(family, held, position),
    }
}

/// Whether the two lists of a certificate show the claim of the position. That proves it only if each list supports its entries.
pub fn is_shown<L: Lookup>(
    family: Family,
    lost: &L,
    held: &L,
    position: &PositionBoard,
    claim: Claim,
) -> bool
    requires lost { L.stands lost.now family }
    requires held { L.stands held.now family }
    requires member { IsPositionOf family (setup_on position.now.board) }
    ensures { IsTrue result ↔ Show family (L.entries_of lost.now) (L.entries_of held.now) (setup_on position.now.board) claim }
{
    match claim {
        Claim::Exactly(value) => shows_value(family, lost, held, position, value),
        Claim::LostWithin(plies) => is_said_lost(family, lost, plies, position),
        Claim::WonWithin(plies) => shows_won(family, lost, position, plies),
    }
}
