// In how many ways pieces stand as in their mirror image, where both lions stand on column b: those of one kind on squares of column b, or two of them in one form
// on the squares of columns a and c in one row.
ghost use Rattle.std.specs.Prelude.{◌≡◌, ◌<◌, ◌≤◌, ◌^◌, slice_index};
ghost use Rattle.dob_rank.specs.EvenWays.{even_ways, far_square, shape_of};
ghost use Rattle.dob_rank.specs.Runs.{AreFewOnBoard, enemy_square, run_kind};
ghost use Rattle.dob_rank.specs.declared.runs.RunKind.TheVariants.{Mixed};

use crate::block::PerKind;
use crate::runs::{ENEMY_SQUARES, LIONS};
use dob_pieces::Profile;

// How many piece sets there are on a board: three numbers of 0 to 2 each.
const SETS: usize = 27;

// The rows of the table: one for rules A, and for rules B by how many lions stand on rows 1 and 4.
const SHAPES: usize = 4;

// By that and by the pieces on the board, in the order of their digits.
const WAYS: [[u16; SETS]; SHAPES] = [
    [
        1, 4, 12, 4, 8, 32, 12, 32, 112, 8, 16, 64, 16, 0, 128, 64, 128, 384, 32, 64, 288, 64, 128,
        384, 288, 384, 1920,
    ],
    [
        1, 4, 12, 4, 8, 32, 12, 32, 112, 6, 12, 48, 12, 0, 96, 48, 96, 288, 23, 56, 212, 56, 112,
        336, 212, 336, 1440,
    ],
    [
        1, 4, 12, 4, 8, 32, 12, 32, 112, 7, 14, 56, 14, 0, 112, 56, 112, 336, 26, 56, 236, 56, 112,
        336, 236, 336, 1584,
    ],
    [
        1, 4, 12, 4, 8, 32, 12, 32, 112, 8, 16, 64, 16, 0, 128, 64, 128, 384, 30, 56, 268, 56, 112,
        336, 268, 336, 1776,
    ],
];

/// In how many ways pieces of those numbers on the board stand as in their mirror image with those lions, both of them on column b.
pub fn even_ways(profile: Profile, on_board: &PerKind, lions: u64) -> u64
    requires few { AreFewOnBoard on_board.now }
    requires lions { lions < LIONS }
    requires kind { run_kind lions ≡ Mixed }
    ensures value { result ≡ even_ways profile (slice_index on_board.now 0) (slice_index on_board.now 1) (slice_index on_board.now 2) lions }
    ensures bound { result ≤ 2 ^ 12 }
{
    let number = 9 * on_board[0] + 3 * on_board[1] + on_board[2];
    let shape = shape_of(profile, lions);
    u64::from(WAYS[shape as usize][number as usize])
}

// The row of the table.
fn shape_of(profile: Profile, lions: u64) -> u64
    requires { lions < LIONS }
    ensures value { result ≡ shape_of profile lions }
    ensures bound { result < 4 }
{
    let own = lions / ENEMY_SQUARES;
    let enemy = enemy_square(own, lions % ENEMY_SQUARES);
    match profile {
        Profile::A => 0,
        Profile::B => 1 + (far_square(own) + far_square(enemy)),
    }
}

// The square of the enemy's lion, by its number among those that the mover's leaves.
fn enemy_square(own: u64, number: u64) -> u64
    requires { number < ENEMY_SQUARES }
    ensures { result ≡ enemy_square own number }
{
    if number < own { number } else { number + 1 }
}

// One for a square of row 1 or 4.
fn far_square(square: u64) -> u64
    ensures value { result ≡ far_square square }
    ensures bound { result ≤ 1 }
{
    match square / 3 {
        0 => 1,
        3 => 1,
        _ => 0,
    }
}
