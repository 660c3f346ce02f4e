// Who lets runners go on.

/// Each node's runner asks it at the start of each turn whether it may go on, and reports to it after the turn's work what that
/// has done. A runner that may not go on fails.
pub trait Gate {
    ghost use Rattle.std.specs.Prelude.{ℕ, Bool};

    // By `says gate node yes` the gate may answer so of that node.
    ghost says: { Self → ℕ → Bool → Type 0 };

    // By `told gate node expanded` it may have been told so of that node.
    ghost told: { Self → ℕ → ℕ → Type 0 };

    /// Whether the runner of that node may go on.
    fn enter(&self, node: usize) -> bool
        ensures { says self.now node result };

    /// Receives after a turn's work how many settlements the node has expanded in it.
    fn worked(&self, node: usize, expanded: u64)
        ensures { told self.now node expanded };
}

/// A gate that always answers yes.
pub struct AlwaysOpen;

impl Gate for AlwaysOpen {
    ghost use Rattle.std.specs.Prelude.{◌≡◌, true};

    ghost says = { λ _ _ yes. yes ≡ true };

    ghost told = { λ _ _ _. Unit {0} };

    fn enter(&self, _node: usize) -> bool {
        true
    }

    fn worked(&self, _node: usize, _expanded: u64) {}
}
