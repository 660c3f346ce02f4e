// A board with another piece on one square, as a move that is made or taken back leaves it.
ghost use Rattle.std.specs.Prelude.{◌≡◌, None, Some};
ghost use Rattle.dob_pieces.specs.Changes.{IsWith, with_own, with_enemy};
ghost use Rattle.dob_pieces.specs.Setups.{at, piece_of};
ghost use Rattle.dob_pieces.specs.Boards.{IsBoardOf};
ghost use Rattle.dob_pieces.specs.declared.kind.Side.TheVariants.{Mover, Enemy};
ghost use Rattle.dob_pieces.specs.declared.setup.Setup.{Setup};

use crate::board::Board;
use crate::kind::Kind;
use crate::square::Square;

impl Board {
    /// The board with nothing on the square.
    pub fn without(self, square: Square) -> Board
        ensures { (before after : Setup) → IsWith before after square None → IsBoardOf before self → IsBoardOf after result }
    {
        Board {
            own_lion: self.own_lion.without(square),
            enemy_lion: self.enemy_lion.without(square),
            chicks: self.chicks.without(square),
            elephants: self.elephants.without(square),
            giraffes: self.giraffes.without(square),
            hens: self.hens.without(square),
            enemies: self.enemies.without(square),
            hands: self.hands,
        }
    }

    /// The board with the mover's piece of that kind on an empty square.
    pub fn with_own(self, square: Square, kind: Kind) -> Board
        ensures { (before after : Setup) → at before square ≡ None → IsWith before after square (Some (piece_of Mover kind)) → IsBoardOf before self
            → IsBoardOf after result }
    {
        own_added(self, square, kind)
    }

    /// The board with the enemy's piece of that kind on an empty square.
    pub fn with_enemy(self, square: Square, kind: Kind) -> Board
        ensures { (before after : Setup) → at before square ≡ None → IsWith before after square (Some (piece_of Enemy kind)) → IsBoardOf before self
            → IsBoardOf after result }
    {
        enemy_added(self, square, kind)
    }
}

// The sets with the mover's piece of that kind on an empty square.
fn own_added(board: Board, square: Square, kind: Kind) -> Board
    ensures { result ≡ with_own kind square board }
{
    match kind {
        Kind::Lion => Board {
            own_lion: board.own_lion.with(square),
            ..board
        },
        Kind::Giraffe => Board {
            giraffes: board.giraffes.with(square),
            ..board
        },
        Kind::Elephant => Board {
            elephants: board.elephants.with(square),
            ..board
        },
        Kind::Chick => Board {
            chicks: board.chicks.with(square),
            ..board
        },
        Kind::Hen => Board {
            chicks: board.chicks.with(square),
            hens: board.hens.with(square),
            ..board
        },
    }
}

// The sets with the enemy's piece: but for the lion it is in the set of all enemies too.
fn enemy_added(board: Board, square: Square, kind: Kind) -> Board
    ensures { result ≡ with_enemy kind square board }
{
    match kind {
        Kind::Lion => Board {
            enemy_lion: board.enemy_lion.with(square),
            ..board
        },
        Kind::Giraffe | Kind::Elephant | Kind::Chick | Kind::Hen => Board {
            enemies: board.enemies.with(square),
            ..own_added(board, square, kind)
        },
    }
}
