// A step or a drop of the mover, by where it begins and ends.
ghost use Rattle.std.specs.Prelude.{◌≡◌};
ghost use Rattle.dob_pieces.specs.declared.profile.Profile.TheVariants as Profile;
ghost use Rattle.dob_pieces.specs.Masks.{own_kind};
ghost use Rattle.dob_moves.specs.AtPlaces.{step_between};
ghost use Rattle.dob_moves.specs.Moves.{grows_at};
ghost use Rattle.dob_moves.specs.Walks.{may_end, step_onto, put_on};

use crate::game_move::Move;
use dob_pieces::{HandKind, Kind, Piece, Setup, Side, Square};

/// Where a step is to end.
#[derive(Clone, Copy)]
pub enum Aim {
    /// A step that catches the enemy lion.
    AtLion,
    /// A step to an empty square or onto another enemy piece.
    Elsewhere,
}

/// The kind of the mover's piece that stands there.
pub fn own_kind(cell: Option<Piece>) -> Option<Kind>
    ensures { result ≡ own_kind cell }
{
    match cell {
        Some(piece) => match piece.side {
            Side::Mover => Some(piece.kind),
            Side::Enemy => None,
        },
        None => None,
    }
}

// Whether such a step may end on what stands there.
fn may_end(aim: Aim, cell: Option<Piece>) -> bool
    ensures { result ≡ may_end aim cell }
{
    match cell {
        Some(piece) => match (aim, piece.side) {
            (_, Side::Mover) => false,
            (Aim::AtLion, Side::Enemy) => matches!(piece.kind, Kind::Lion),
            (Aim::Elsewhere, Side::Enemy) => !matches!(piece.kind, Kind::Lion),
        },
        None => matches!(aim, Aim::Elsewhere),
    }
}

/// Whether a step of that kind that ends there makes a hen.
pub(crate) fn grows_at(kind: Kind, to: Square) -> bool
    ensures { result ≡ grows_at kind to }
{
    matches!(kind, Kind::Chick) && to.row() == 3
}

/// The step of a piece of that kind that ends on what stands there, if it may end there.
pub fn step_onto(
    aim: Aim,
    cell: Option<Piece>,
    kind: Kind,
    from: Square,
    to: Square,
) -> Option<Move>
    ensures { result ≡ step_onto aim cell kind from to }
{
    if may_end(aim, cell) {
        let catch = cell.is_some();
        let grows = grows_at(kind, to);
        Some(Move::Step {
            kind,
            from,
            to,
            catch,
            grows,
        })
    } else {
        None
    }
}

/// The mover's step from the one square to the other, if it ends where it is aimed.
pub(crate) fn step_between(setup: &Setup, aim: Aim, from: Square, to: Square) -> Option<Move>
    ensures { result ≡ step_between aim setup.now from to }
{
    match own_kind(setup.at(from)) {
        Some(kind) => {
            if kind.leads(from, to) {
                step_onto(aim, setup.at(to), kind, from, to)
            } else {
                None
            }
        }
        None => None,
    }
}

/// The drop of that kind on that square by the rules of profile A, if nothing stands there.
pub fn put_on(setup: &Setup, kind: HandKind, to: Square) -> Option<Move>
    ensures { result ≡ put_on Profile.A setup.now kind to }
{
    match setup.at(to) {
        Some(_) => None,
        None => Some(Move::Put { kind, to }),
    }
}
