// The status of a position, and the first step that catches the enemy lion, looked at from the lions' squares.
ghost use Rattle.std.specs.Prelude.{◌↔◌, ◌≡◌, IsTrue, MatchOption, Some, true};
ghost use Rattle.dob_pieces.specs.declared.profile.Profile.TheVariants.{A};
ghost use Rattle.dob_pieces.specs.declared.kind.Side.TheVariants.{Enemy};
ghost use Rattle.dob_pieces.specs.Setups.{at, piece_of};
ghost use Rattle.dob_moves.specs.Moves.{CanGo, grows_at};
ghost use Rattle.dob_moves.specs.Shown.{setup_on};
ghost use Rattle.dob_moves.specs.Statuses.{CanCatch, HasStatus, IsFirstCatch};
ghost use Rattle.dob_moves.specs.declared.game_move.Move.{Move as Moved};

use crate::count::has_move;
use crate::first_moves::grows_at;
use crate::game_move::Move;
use crate::position_board::PositionBoard;
use crate::position_status::Status;
use dob_pieces::{Kind, Position, Profile, Square};

/// The status of the position by the rules of the profile: a catch is looked for first, then a try, then a move. Each
/// profile gives the same.
pub fn status(profile: Profile, position: &Position) -> Status
    ensures { HasStatus profile position.now.setup result }
{
    PositionBoard::of(position).status(profile)
}

/// The first step in the move order that catches the enemy lion, or `None` if no step does.
pub fn first_catch(position: &Position) -> Option<Move>
    ensures { MatchOption result (¬ CanCatch position.now.setup) (λ m. IsFirstCatch position.now.setup m) }
{
    PositionBoard::of(position).first_catch()
}

impl PositionBoard {
    /// The status by the rules of the profile, as `status` gives it.
    #[tactic(auto, using(crate::proofs::Shared::share_status))]
    pub fn status(&self, profile: Profile) -> Status
        ensures { HasStatus profile (setup_on self.now.board) result }
    {
        // Each profile has the statuses of profile A, so only the contract names this one.
        let _ = profile;
        shared_status(self)
    }

    /// Whether some step ends on the enemy lion.
    pub fn can_catch(&self) -> bool
        ensures { IsTrue result ↔ CanCatch (setup_on self.now.board) }
    {
        can_catch(self, self.board.enemy_lion_square())
    }

    /// The first step in the move order that ends on the enemy lion, or `None` if no step does.
    pub fn first_catch(&self) -> Option<Move>
        ensures { MatchOption result (¬ CanCatch (setup_on self.now.board)) (λ m. IsFirstCatch (setup_on self.now.board) m) }
    {
        let to = self.board.enemy_lion_square();
        let attackers = self.board.attackers(to);
        match attackers.first() {
            None => None,
            Some(from) => Some(catch_by(self.board.own_kind(from), from, to)),
        }
    }
}

// The step onto the enemy lion, which stands on the one square, of a piece of that kind on the other.
fn catch_by(kind: Kind, from: Square, to: Square) -> Move
    ensures { result ≡ Moved.Step kind from to true (grows_at kind to) }
{
    Move::Step {
        kind,
        from,
        to,
        catch: true,
        grows: grows_at(kind, to),
    }
}

// Whether some step of the mover ends on the enemy lion, which stands on that square.
fn can_catch(position: &PositionBoard, lion: Square) -> bool
    ensures { at (setup_on position.now.board) lion ≡ Some (piece_of Enemy Kind.Lion) → (IsTrue result ↔ CanCatch (setup_on position.now.board)) }
{
    !position.board.attackers(lion).is_empty()
}

// Whether the mover's lion has a step, other than onto the enemy lion. Most positions that have a move have one.
fn lion_can_step(position: &PositionBoard) -> bool
    ensures { IsTrue result → (move : Moved) × CanGo A (setup_on position.now.board) move }
{
    let targets = Kind::Lion.targets(position.board.own_lion_square());
    !targets.and(position.board.ends()).is_empty()
}

// Whether the mover has a move while its steps onto the enemy lion aren't counted.
fn can_move(position: &PositionBoard) -> bool
    ensures { IsTrue result ↔ ((move : Moved) × CanGo A (setup_on position.now.board) move) }
{
    lion_can_step(position) || has_move(position)
}

// The status by the rules of each profile.
fn shared_status(position: &PositionBoard) -> Status
    ensures { HasStatus A (setup_on position.now.board) result }
{
    let lion = position.board.enemy_lion_square();
    if can_catch(position, lion) {
        Status::Caught
    } else if lion.row() == 0 {
        Status::Tried
    } else if can_move(position) {
        Status::Open
    } else {
        Status::Stuck
    }
}
