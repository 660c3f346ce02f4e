// The moves of a position, each with what it leads to: each walk over moves goes through here.
ghost use Rattle.std.specs.Prelude.{◌≡◌, ◌<◌, Some, length, slice_get};
ghost use Rattle.dob_pieces.specs.declared.profile.Profile.{Profile as AnyProfile};
ghost use Rattle.dob_pieces.specs.declared.setup.Setup.{Setup};
ghost use Rattle.dob_moves.specs.Moves.{Goes};
ghost use Rattle.dob_moves.specs.MoveWalks.{IsWalk};
ghost use Rattle.dob_moves.specs.Shown.{setup_on};
ghost use Rattle.dob_moves.specs.Statuses.{HasStatus};

use crate::boards_after::board_after;
use crate::game_move::Move;
use crate::listing::{MoveList, list_moves};
use crate::position_board::PositionBoard;
use crate::position_status::Status;
use dob_pieces::{Board, Hand, Hands, Profile, SquareSet};

/// A move, and the position to which it leads.
#[derive(Clone, Copy)]
pub struct Outcome {
    pub played: Move,
    /// Seen from the side that moves next.
    pub position: PositionBoard,
}

/// The moves of a position, from which what each leads to is made. One walk serves many positions, one after the other.
#[derive(Drop)]
pub struct Walk {
    pub moves: MoveList,
    /// What the enemy sees before the moves.
    pub seen: Board,
}

impl Walk {
    /// A walk over no moves.
    pub fn new() -> Walk {
        let none = Hand {
            chicks: 0,
            elephants: 0,
            giraffes: 0,
        };
        Walk {
            moves: MoveList::new(),
            seen: Board {
                own_lion: SquareSet::EMPTY,
                enemy_lion: SquareSet::EMPTY,
                chicks: SquareSet::EMPTY,
                elephants: SquareSet::EMPTY,
                giraffes: SquareSet::EMPTY,
                hens: SquareSet::EMPTY,
                enemies: SquareSet::EMPTY,
                hands: Hands {
                    mover: none,
                    enemy: none,
                },
            },
        }
    }

    /// Starts the walk over the position's moves by the rules of the profile, each once, in the move order, and gives the position's status. No position
    /// but an open one has moves.
    pub fn start(&mut self, profile: Profile, position: &PositionBoard) -> Status
        ensures status { HasStatus profile (setup_on position.now.board) result }
        ensures walk { IsWalk profile (setup_on position.now.board) self.new }
    {
        let status = list_moves(profile, &mut self.moves, position);
        if status.is_open() {
            self.seen = position.board.turned();
        }
        status
    }

    /// How many moves there are.
    pub fn len(&self) -> usize
        ensures { result ≡ length self.now.moves.items }
    {
        self.moves.len()
    }

    /// The move at that place of the walk, and what it leads to.
    pub fn outcome(&self, place: usize) -> Outcome
        requires walk { (profile : AnyProfile) × (p : Setup) × IsWalk profile p self.now }
        requires within { place < length self.now.moves.items }
        ensures played { slice_get self.now.moves.items place ≡ Some result.played }
        ensures goes { (profile : AnyProfile) (p : Setup) → IsWalk profile p self.now
            → HasStatus profile p Status.Open × Goes profile p result.played (setup_on result.position.board) }
    {
        let played = self.moves[place];
        let position = PositionBoard::new(board_after(&self.seen, &played));
        Outcome { played, position }
    }
}
