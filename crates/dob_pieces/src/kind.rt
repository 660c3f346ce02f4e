// Sides, kinds of piece and pieces.
ghost use Rattle.std.specs.Prelude.{◌≡◌};
ghost use Rattle.dob_pieces.specs.Pieces.{other_side, kind_in_hand, kind_on_board};
ghost use Rattle.dob_pieces.specs.Setups.{piece_of};

/// The side to move, or the other one.
#[derive(Clone, Copy, PartialEq, Eq)]
pub enum Side {
    Mover,
    Enemy,
}

impl Side {
    /// The other side.
    pub fn other(self) -> Side
        ensures { result ≡ other_side self }
    {
        match self {
            Side::Mover => Side::Enemy,
            Side::Enemy => Side::Mover,
        }
    }
}

/// A kind of piece as it stands on the board. A hen is a chick that has stepped onto its far row.
#[derive(Clone, Copy, PartialEq, Eq)]
pub enum Kind {
    Lion,
    Giraffe,
    Elephant,
    Chick,
    Hen,
}

impl Kind {
    /// The kind that the piece has in the hand of whoever catches it: a hen is a chick there. A lion has none.
    pub fn in_hand(self) -> Option<HandKind>
        ensures { result ≡ kind_in_hand self }
    {
        match self {
            Kind::Lion => None,
            Kind::Giraffe => Some(HandKind::Giraffe),
            Kind::Elephant => Some(HandKind::Elephant),
            Kind::Chick | Kind::Hen => Some(HandKind::Chick),
        }
    }
}

/// A kind of piece that can lie in a hand, in the order in which hands and piece sets list them.
#[derive(Clone, Copy, PartialEq, Eq)]
pub enum HandKind {
    Chick,
    Elephant,
    Giraffe,
}

impl HandKind {
    /// The kind that the piece has on the board after it is dropped.
    pub fn on_board(self) -> Kind
        ensures { result ≡ kind_on_board self }
    {
        match self {
            HandKind::Chick => Kind::Chick,
            HandKind::Elephant => Kind::Elephant,
            HandKind::Giraffe => Kind::Giraffe,
        }
    }
}

/// A piece on the board.
#[derive(Clone, Copy, PartialEq, Eq)]
pub struct Piece {
    pub side: Side,
    pub kind: Kind,
}

impl Piece {
    /// The piece seen from the other side.
    pub fn turned(self) -> Piece
        ensures { result ≡ piece_of (other_side self.side) self.kind }
    {
        Piece {
            side: self.side.other(),
            kind: self.kind,
        }
    }
}
