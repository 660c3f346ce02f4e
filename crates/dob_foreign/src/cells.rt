// What stands on a square as a number: 0 nothing, 1 to 5 a piece of the side to move, 6 to 10 one of the other side.
ghost use Rattle.std.specs.Prelude.{◌≡◌, ◌≢◌, ◌<◌, MatchOption};
ghost use Rattle.dob_pieces.specs.Setups.{Cell};
ghost use Rattle.dob_foreign.specs.Cells.{cell_number, side_number};
ghost use Rattle.dob_foreign.specs.Moves.{kind_number};

use crate::moves::kind_number;
use dob_pieces::{Kind, Piece, Side};

/// The number of what stands on a square.
pub fn cell_number(cell: Option<Piece>) -> u8
    ensures { result ≡ cell_number cell }
{
    match cell {
        None => 0,
        Some(piece) => side_number(piece.side) + kind_number(piece.kind) as u8,
    }
}

// The number of a side's first kind.
fn side_number(side: Side) -> u8
    ensures { result ≡ side_number side }
{
    match side {
        Side::Mover => 1,
        Side::Enemy => 6,
    }
}

/// What stands on a square by its number.
pub fn cell_of(number: u8) -> Option<Option<Piece>>
    ensures { MatchOption result ((cell : Cell) → cell_number cell ≢ number) (λ cell. cell_number cell ≡ number) }
{
    match number {
        0 => Some(None),
        1..=5 => Some(Some(Piece {
            side: Side::Mover,
            kind: kind_of(number - 1),
        })),
        6..=10 => Some(Some(Piece {
            side: Side::Enemy,
            kind: kind_of(number - 6),
        })),
        _ => None,
    }
}

fn kind_of(number: u8) -> Kind
    requires { number < 5 }
    ensures { kind_number result ≡ number }
{
    match number {
        0 => Kind::Chick,
        1 => Kind::Elephant,
        2 => Kind::Giraffe,
        3 => Kind::Hen,
        _ => Kind::Lion,
    }
}
