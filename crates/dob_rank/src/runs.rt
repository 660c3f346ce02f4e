// Runs: positions of a block with the same hands and the same lions stand in a row, and the columns of the lions say
// of ten runs in eleven whether their positions are the earlier ones of their classes. In the others stretches say it.
ghost use Rattle.std.specs.Prelude.{◌≡◌, ◌<◌};
ghost use Rattle.dob_rank.specs.Runs.{run_kind};

use dob_pieces::Hand;

/// On how many squares the mover's lion can stand: those off its far row.
pub(crate) const OWN_SQUARES: u64 = 9;

/// On how many the enemy's lion can stand: all that the mover's leaves.
pub(crate) const ENEMY_SQUARES: u64 = 11;

/// In how many ways the two lions can stand.
pub const LIONS: u64 = OWN_SQUARES * ENEMY_SQUARES;

/// How many squares both lions leave to other pieces.
pub(crate) const FREE_SQUARES: u64 = 10;

/// Whether the positions of a run are no later than their mirror images.
#[derive(Clone, Copy)]
pub enum RunKind {
    /// Each of them is the earlier one: the mover's lion is on column a, or on b with the enemy's on a.
    First,
    /// Each of them is the later one: the mover's lion is on column c, or on b with the enemy's on c.
    Later,
    /// Both lions are on column b, and what else stands on the board decides.
    Mixed,
}

/// The kind of the runs of those lions.
pub fn kind_of(lions: u64) -> RunKind
    requires { lions < LIONS }
    ensures { result ≡ run_kind lions }
{
    let own = lions / ENEMY_SQUARES;
    let digit = lions % ENEMY_SQUARES;
    let enemy = if digit < own { digit } else { digit + 1 };
    match (own % 3, enemy % 3) {
        (0, _) | (1, 0) => RunKind::First,
        (1, 1) => RunKind::Mixed,
        _ => RunKind::Later,
    }
}

/// A place in a block: the run, and the place in the run.
#[derive(Clone, Copy)]
pub struct Spot {
    pub run: u64,
    pub local: u64,
}

/// The digits that the positions of a run have in common: the mover's hand, the square of the mover's lion, and that of the
/// enemy's by its number among those that the other one leaves.
#[derive(Clone, Copy)]
pub struct RunDigits {
    pub hand: Hand,
    pub own: u8,
    pub enemy: u8,
}
