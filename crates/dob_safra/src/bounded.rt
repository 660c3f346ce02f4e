// Numbers with a limit.
ghost use Rattle.std.specs.Prelude.{◌≡◌, MatchOption};
ghost use Rattle.dob_safra.specs.Bounds.{IsUpTo};

use std::marker::Model;

/// The most nodes of a ring.
pub(crate) const MAX_NODES: usize = 16;

/// A number of nodes that a ring may have.
pub type NodeCount = Bounded<MAX_NODES>;

/// A number from 1 to `MOST`.
#[derive(Clone, Copy)]
pub struct Bounded<const MOST: usize> {
    number: usize,
}

impl<const MOST: usize> Model for Bounded<MOST> {
    ghost use Rattle.std.specs.Prelude.{ℕ};
    ghost use Rattle.dob_safra.specs.Bounds.{IsUpTo};

    ghost Value = { ℕ };

    ghost view = { λ bounded. bounded.number };

    ghost invariant = { λ bounded. IsUpTo MOST bounded.number };

    ghost inverse = { λ n. record { number = n } };
}

impl<const MOST: usize> Bounded<MOST> {
    /// That number; none if it isn't 1 to `MOST`.
    pub fn new(number: usize) -> Option<Bounded<MOST>>
        ensures { MatchOption result (¬ IsUpTo MOST number) (λ bounded. (bounded ≡ number) × IsUpTo MOST number) }
    {
        if number == 0 || number > MOST {
            return None;
        }
        Some(Bounded { number })
    }

    /// The number, 1 to `MOST`.
    pub fn get(self) -> usize
        ensures value { result ≡ self.entry }
        ensures size { IsUpTo MOST result }
    {
        self.number
    }
}

impl NodeCount {
    /// One node.
    pub fn one() -> NodeCount
        ensures { result ≡ 1 }
    {
        Bounded { number: 1 }
    }
}
