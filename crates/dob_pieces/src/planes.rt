// Sets of squares in one word, twelve bits each: a table says what each cell adds to it, and is read without a branch on what stands there.
ghost use Rattle.std.specs.Prelude.{◌≡◌, ◌<◌, ◌/◌, ◌%◌};
ghost use Rattle.dob_pieces.specs.Boards.{entry};
ghost use Rattle.dob_pieces.specs.Masks.{kind_number, owner_number};

use crate::kind::Piece;
use crate::square_set::SquareSet;

/// The lowest bits of the five planes of a word: the lions of both, ..
pub const LIONS: u64 = 1;

/// .. the enemy's pieces, ..
pub const ENEMIES: u64 = 1 << 12;

/// .. chicks and hens, ..
pub const CHICKS: u64 = 1 << 24;

/// .. elephants, ..
pub const ELEPHANTS: u64 = 1 << 36;

/// .. and giraffes and hens.
pub const GIRAFFES_AND_HENS: u64 = 1 << 48;

// What each cell adds to a word of planes: by the kind of its piece, in the order of `Kind`, and then by its owner, who is
// nobody, the mover or the enemy. Empty cells use the lion of nobody; column 3 is padding, so that rows of four are found by
// a shift.
const PLANES: [[u64; 4]; 5] = [
    [0, LIONS, LIONS + ENEMIES, 0],
    [0, GIRAFFES_AND_HENS, GIRAFFES_AND_HENS + ENEMIES, 0],
    [0, ELEPHANTS, ELEPHANTS + ENEMIES, 0],
    [0, CHICKS, CHICKS + ENEMIES, 0],
    [
        0,
        CHICKS + GIRAFFES_AND_HENS,
        CHICKS + GIRAFFES_AND_HENS + ENEMIES,
        0,
    ],
];

/// What the cell adds, found without a branch on what stands there: kind and owner are two choices each of a number or 0, and
/// one choice of a whole piece would become a jump.
pub(crate) fn entry_of(cell: Option<Piece>) -> u64
    ensures { result ≡ entry cell }
{
    PLANES[kind_number(cell)][owner_number(cell)]
}

// The place of the piece's kind in the order of `Kind`; 0 for an empty cell.
fn kind_number(cell: Option<Piece>) -> usize
    ensures value { result ≡ kind_number cell }
    ensures bound { result < 5 }
{
    match cell {
        Some(piece) => piece.kind as usize,
        None => 0,
    }
}

// 0 if nobody has a piece, 1 for the mover's, 2 for the enemy's.
fn owner_number(cell: Option<Piece>) -> usize
    ensures value { result ≡ owner_number cell }
    ensures bound { result < 3 }
{
    match cell {
        Some(piece) => 1 + piece.side as usize,
        None => 0,
    }
}

/// The set whose lowest bit has that value in a word of planes.
pub(crate) fn plane(planes: u64, unit: u64) -> SquareSet
    requires { 0 < unit }
    ensures { result ≡ planes / unit % 4096 }
{
    SquareSet::of_bits((planes / unit % 4096) as u16)
}
