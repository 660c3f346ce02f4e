// A move as numbers.
ghost use Rattle.std.specs.Prelude.{◌≡◌, ◌≤◌};
ghost use Rattle.dob_foreign.specs.Moves.{flag, kind_number, shown_step};

use dob_moves::Move;
use dob_pieces::{Kind, Square};

/// A move: a step of a piece of that kind from one square to another, or where it comes from 12 a drop. Chick 0, elephant 1, giraffe 2, hen 3, lion 4, as the
/// piece was before; square a1 is 0, b1 1, c1 2, a2 3 and so on to c4, 11. `catches` is 1 if a piece is caught and `grows` if a chick becomes a hen,
/// else 0.
#[repr(C)]
#[derive(Clone, Copy)]
pub struct DobutsuStep {
    pub kind: u32,
    pub from: u32,
    pub to: u32,
    pub catches: u32,
    pub grows: u32,
}

/// The move as it is shown.
pub fn shown_step(played: Move) -> DobutsuStep
    ensures { result ≡ shown_step played }
{
    match played {
        Move::Step {
            kind,
            from,
            to,
            catch,
            grows,
        } => DobutsuStep {
            kind: kind_number(kind),
            from: square_number(from),
            to: square_number(to),
            catches: u32::from(catch),
            grows: u32::from(grows),
        },
        Move::Put { kind, to } => DobutsuStep {
            kind: kind_number(kind.on_board()),
            from: HAND,
            to: square_number(to),
            catches: 0,
            grows: 0,
        },
    }
}

// Where a piece that is dropped comes from.
const HAND: u32 = 12;

fn square_number(square: Square) -> u32
    ensures { result ≡ square }
{
    square.index() as u32
}

pub(crate) fn kind_number(kind: Kind) -> u32
    ensures number { result ≡ kind_number kind }
    ensures bound { result ≤ 4 }
{
    match kind {
        Kind::Chick => 0,
        Kind::Elephant => 1,
        Kind::Giraffe => 2,
        Kind::Hen => 3,
        Kind::Lion => 4,
    }
}
