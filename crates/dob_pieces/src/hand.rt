// The pieces in hand.
ghost use Rattle.std.specs.Prelude.{◌≡◌, ◌<◌};
ghost use Rattle.dob_pieces.specs.Setups.{held, with_one_more, with_one_less};

use crate::kind::HandKind;

/// How many pieces of each kind one side has in hand. A caught hen lies there as a chick.
#[derive(Clone, Copy, PartialEq, Eq)]
pub struct Hand {
    pub chicks: u8,
    pub elephants: u8,
    pub giraffes: u8,
}

impl Hand {
    /// How many pieces of that kind the hand holds.
    pub fn count(&self, kind: HandKind) -> u8
        ensures { result ≡ held self.now kind }
    {
        match kind {
            HandKind::Chick => self.chicks,
            HandKind::Elephant => self.elephants,
            HandKind::Giraffe => self.giraffes,
        }
    }

    /// The hand with one more of that kind.
    pub fn with_one_more(self, kind: HandKind) -> Hand
        requires { held self kind < 255 }
        ensures { result ≡ with_one_more self kind }
    {
        match kind {
            HandKind::Chick => Hand {
                chicks: self.chicks + 1,
                ..self
            },
            HandKind::Elephant => Hand {
                elephants: self.elephants + 1,
                ..self
            },
            HandKind::Giraffe => Hand {
                giraffes: self.giraffes + 1,
                ..self
            },
        }
    }

    /// The hand with one less of that kind, which it holds.
    pub fn with_one_less(self, kind: HandKind) -> Hand
        requires { 0 < held self kind }
        ensures { result ≡ with_one_less self kind }
    {
        match kind {
            HandKind::Chick => Hand {
                chicks: self.chicks - 1,
                ..self
            },
            HandKind::Elephant => Hand {
                elephants: self.elephants - 1,
                ..self
            },
            HandKind::Giraffe => Hand {
                giraffes: self.giraffes - 1,
                ..self
            },
        }
    }
}

/// The hands of both sides.
#[derive(Clone, Copy, PartialEq, Eq)]
pub struct Hands {
    pub mover: Hand,
    pub enemy: Hand,
}
