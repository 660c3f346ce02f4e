// The letters of pieces.
ghost use Rattle.std.specs.Prelude.{◌≡◌, ◌<◌};
ghost use Rattle.dob_text.specs.Letters.{letter_of_kind, cased, letter_of};

use dob_pieces::{Kind, Piece, Side};

/// The letter of a piece: upper case for the mover's, lower case for the enemy's.
pub fn piece_letter(side: Side, kind: Kind) -> u8
    ensures value { result ≡ cased side (letter_of_kind kind) }
    ensures ascii { result < 128 }
{
    let letter = match kind {
        Kind::Lion => b'L',
        Kind::Giraffe => b'G',
        Kind::Elephant => b'E',
        Kind::Chick => b'C',
        Kind::Hen => b'H',
    };
    match side {
        Side::Mover => letter,
        Side::Enemy => letter.to_ascii_lowercase(),
    }
}

/// The letter of what stands on a square, a full stop if nothing does.
pub fn cell_letter(cell: Option<Piece>) -> u8
    ensures value { result ≡ letter_of cell }
    ensures ascii { result < 128 }
{
    match cell {
        Some(piece) => piece_letter(piece.side, piece.kind),
        None => b'.',
    }
}
