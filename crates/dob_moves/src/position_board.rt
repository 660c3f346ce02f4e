// A position as sets of squares: what goes through many moves has no list of cells.
ghost use Rattle.std.specs.Prelude.{◌≡◌, Some};
ghost use Rattle.dob_pieces.specs.Boards.{IsBoardOf};
ghost use Rattle.dob_pieces.specs.Setups.{IsLegal, at, piece_of};
ghost use Rattle.dob_pieces.specs.declared.setup.Setup.{Setup};
ghost use Rattle.dob_moves.specs.Shown.{cell_if, setup_on};

use dob_pieces::{Board, Kind, Piece, Position, Setup, Side, Square};

/// A position as a board, seen from the side to move. It is legal by its type, as a `Position` is.
#[derive(Clone, Copy)]
pub struct PositionBoard {
    pub board: Board,
    pub ghost legal: { IsLegal (setup_on board) },
    pub ghost shows: { IsBoardOf (setup_on board) board },
}

impl PositionBoard {
    /// The position that the board shows. It tests nothing when it runs.
    #[inline(always)]
    pub fn new(board: Board) -> PositionBoard
        requires { (setup : Setup) × IsLegal setup × IsBoardOf setup board }
        ensures { (setup : Setup) → IsLegal setup → IsBoardOf setup board → setup_on result.board ≡ setup }
    {
        PositionBoard { board }
    }

    /// The same position, from its cells.
    pub fn of(position: &Position) -> PositionBoard
        ensures { setup_on result.board ≡ position.now.setup }
    {
        PositionBoard::new(Board::of(&position.setup))
    }

    /// The same position as cells.
    pub fn position(&self) -> Position
        ensures { result.setup ≡ setup_on self.now.board }
    {
        let mut board = [None; Square::COUNT];
        for index in 0..Square::COUNT {
            board[index] = self.at(Square::new(index));
        }
        Position::new(Setup {
            board,
            hands: self.board.hands,
        })
    }

    // What stands on the square.
    fn at(&self, square: Square) -> Option<Piece>
        ensures { result ≡ at (setup_on self.now.board) square }
    {
        cell_if(
            self.board.own_lion.has(square),
            self.board.enemy_lion.has(square),
            self.board.enemies.has(square),
            self.board.hens.has(square),
            self.board.chicks.has(square),
            self.board.elephants.has(square),
            self.board.giraffes.has(square),
        )
    }
}

// What stands on a square that is in these sets; a hen is a chick too.
fn cell_if(
    own_lion: bool,
    enemy_lion: bool,
    enemy: bool,
    hen: bool,
    chick: bool,
    elephant: bool,
    giraffe: bool,
) -> Option<Piece>
    ensures { result ≡ cell_if own_lion enemy_lion enemy hen chick elephant giraffe }
{
    let side = if enemy { Side::Enemy } else { Side::Mover };
    if own_lion {
        piece(Side::Mover, Kind::Lion)
    } else if enemy_lion {
        piece(Side::Enemy, Kind::Lion)
    } else if hen {
        piece(side, Kind::Hen)
    } else if chick {
        piece(side, Kind::Chick)
    } else if elephant {
        piece(side, Kind::Elephant)
    } else if giraffe {
        piece(side, Kind::Giraffe)
    } else {
        None
    }
}

fn piece(side: Side, kind: Kind) -> Option<Piece>
    ensures { result ≡ Some (piece_of side kind) }
{
    Some(Piece { side, kind })
}
