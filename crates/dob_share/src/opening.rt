// What is known of a class before anything is settled.
ghost use Rattle.std.specs.Prelude.{◌≤◌};
ghost use Rattle.dob_moves.specs.Laws.{most_moves};

use dob_moves::Status;

/// A class's status and its number of moves, 63 at most, as each position's.
#[derive(Clone, Copy)]
pub struct Opening {
    pub status: Status,
    pub moves: u8,
    pub ghost few: { moves ≤ most_moves },
}
