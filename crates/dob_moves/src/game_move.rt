// Moves.
use dob_pieces::{HandKind, Kind, Square};

/// A move of the side to move.
#[derive(Clone, Copy, PartialEq, Eq)]
pub enum Move {
    /// A step of a piece of that kind, as it was before the step, from one square to another; `catch` if it
    /// catches a piece, `grows` if a chick becomes a hen.
    Step {
        kind: Kind,
        from: Square,
        to: Square,
        catch: bool,
        grows: bool,
    },
    /// A drop of a piece in hand onto an empty square.
    Put {
        kind: HandKind,
        to: Square,
    },
}

impl Default for Move {
    /// What stands in the places of a list that hold no move yet: a step from a square to itself, which no position has.
    fn default() -> Move {
        Move::Step {
            kind: Kind::Lion,
            from: Square::new(0),
            to: Square::new(0),
            catch: false,
            grows: false,
        }
    }
}
