// What a position is before any move is made.
ghost use Rattle.std.specs.Prelude.{◌≡◌, ◌↔◌, true};

/// The status of a position, decided in this order.
#[derive(Clone, Copy, PartialEq, Eq)]
pub enum Status {
    /// Some step of the side to move ends on the enemy lion: a win in one ply.
    Caught,
    /// The enemy lion stands on row 1: a loss in 0.
    Tried,
    /// The side to move has no move: a loss in 0.
    Stuck,
    /// None of these: the game goes on.
    Open,
}

impl Status {
    /// Whether it is that of an open position.
    pub fn is_open(self) -> bool
        ensures { (result ≡ true) ↔ (self ≡ Status.Open) }
    {
        matches!(self, Status::Open)
    }
}
