// Values, the greatest distance, and what an entry says up to some depth.
ghost use Rattle.std.specs.Prelude.{◌≡◌};
ghost use Rattle.dob_distance.specs.Distances.{plies_of};
ghost use Rattle.dob_distance.specs.Entries.{is_win_within, is_loss_within, is_draw};

/// The greatest distance that an entry may have.
pub const MAX_DISTANCE: u16 = 65_534;

/// The value of a position for the side to move, with the least number of plies in which the end can be forced.
#[derive(Clone, Copy, PartialEq, Eq)]
pub enum Value {
    Win(u16),
    Loss(u16),
    Draw,
}

impl Value {
    /// Its distance, 0 of a draw.
    pub fn plies(self) -> u16
        ensures { result ≡ plies_of self }
    {
        match self {
            Value::Win(plies) => plies,
            Value::Loss(plies) => plies,
            Value::Draw => 0,
        }
    }

    /// Whether this is a win in at most that many plies.
    pub fn is_win_within(self, depth: u16) -> bool
        ensures { result ≡ is_win_within depth self }
    {
        match self {
            Value::Win(plies) => plies <= depth,
            Value::Loss(_) | Value::Draw => false,
        }
    }

    /// Whether this is a loss in at most that many plies.
    pub fn is_loss_within(self, depth: u16) -> bool
        ensures { result ≡ is_loss_within depth self }
    {
        match self {
            Value::Loss(plies) => plies <= depth,
            Value::Win(_) | Value::Draw => false,
        }
    }

    /// Whether this is a draw.
    pub fn is_draw(self) -> bool
        ensures { result ≡ is_draw self }
    {
        match self {
            Value::Draw => true,
            Value::Win(_) | Value::Loss(_) => false,
        }
    }
}
