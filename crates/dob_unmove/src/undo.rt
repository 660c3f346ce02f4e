// How one move is taken back.
use dob_pieces::{HandKind, Kind, Square};

/// A way in which the last move may have been made, seen from the side that made it.
#[derive(Clone, Copy)]
pub enum RetroMove {
    /// A step: the piece goes back from `to` to `from`, and is of that kind there; `caught` is the kind of the
    /// enemy's piece that comes back to `to`, if there is one.
    Unstep {
        kind: Kind,
        from: Square,
        to: Square,
        caught: Option<Kind>,
    },
    /// A drop: the piece goes back to the hand.
    Unput {
        kind: HandKind,
        to: Square,
    },
}
