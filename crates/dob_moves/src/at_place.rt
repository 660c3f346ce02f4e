// The move at a place of the move order, without the list of all: each square and each kind in hand has its places.
ghost use Rattle.std.specs.Prelude.{◌≡◌, ◌<◌, ◌+◌, ◌*◌, ℕ, MatchOption};
ghost use Rattle.dob_moves.specs.declared.game_move.Move.{Move as AnyMove};
ghost use Rattle.dob_moves.specs.Moves.{CanGo, hand_place, place as place_of};
ghost use Rattle.dob_moves.specs.Statuses.{HasStatus};
ghost use Rattle.dob_moves.specs.AtPlaces.{IsMoveAt, IsCatchAt, drop_on};

use crate::first_moves::{Aim, put_on, step_between};
use crate::game_move::Move;
use crate::position_status::Status;
use crate::status_of::status;
use dob_pieces::{HandKind, Piece, Position, Profile, Setup, Side, Square};

// The first place of a drop, behind those of all steps, and the one behind the last.
const FIRST_DROP: usize = Square::COUNT * Square::COUNT;

const END: usize = FIRST_DROP + 3 * Square::COUNT;

/// The move of an open position at that place of the move order, by the rules of the profile, or `None` if it has none there, and of any
/// other position. The place of a step is 12 times the square that it leaves and the square that it reaches, that of a drop 144, 12 times its
/// kind's number (chick 0, elephant 1, giraffe 2) and the square. It takes no memory.
#[tactic(auto, using(crate::proofs::Verdicts::not_open))]
pub fn move_at(profile: Profile, position: &Position, place: usize) -> Option<Move>
    ensures { MatchOption result ((m : AnyMove) → ¬ IsMoveAt profile position.now.setup place m) (IsMoveAt profile position.now.setup place) }
{
    match move_of_open(profile, position, place) {
        None => None,
        Some(found) => match status(profile, position) {
            Status::Open => Some(found),
            _ => None,
        },
    }
}

/// The step onto the enemy lion at that place of the move order, or `None` if there is none. It takes no memory.
pub fn catch_at(position: &Position, place: usize) -> Option<Move>
    ensures { MatchOption result ((m : AnyMove) → ¬ IsCatchAt position.now.setup place m) (IsCatchAt position.now.setup place) }
{
    if place >= FIRST_DROP {
        return None;
    }
    let (from, to) = squares_at(place);
    step_between(&position.setup, Aim::AtLion, from, to)
}

// The move at that place, of a position that is open.
fn move_of_open(profile: Profile, position: &Position, place: usize) -> Option<Move>
    ensures { MatchOption result
        ((m : AnyMove) → CanGo profile position.now.setup m → place_of m ≡ place → ⊥)
        (λ m. CanGo profile position.now.setup m × (place_of m ≡ place)) }
{
    if place < FIRST_DROP {
        let (from, to) = squares_at(place);
        step_between(&position.setup, Aim::Elsewhere, from, to)
    } else if place < END {
        let drop = place - FIRST_DROP;
        let to = Square::new(drop % Square::COUNT);
        drop_on(
            profile,
            &position.setup,
            hand_kind(drop / Square::COUNT),
            to,
        )
    } else {
        None
    }
}

// The squares that the step at that place leaves and reaches.
fn squares_at(place: usize) -> (Square, Square)
    requires { place < 144 }
    ensures place { 12 * result.0 + result.1 ≡ place }
    ensures first { result.0 < 12 }
    ensures last { result.1 < 12 }
{
    (
        Square::new(place / Square::COUNT),
        Square::new(place % Square::COUNT),
    )
}

// The drop of that kind on that square by the rules of the profile.
fn drop_on(profile: Profile, setup: &Setup, kind: HandKind, to: Square) -> Option<Move>
    ensures { result ≡ drop_on profile setup.now kind to }
{
    let piece = Piece {
        side: Side::Mover,
        kind: kind.on_board(),
    };
    if setup.hands.mover.count(kind) > 0 && profile.may_stand(to, Some(piece)) {
        put_on(setup, kind, to)
    } else {
        None
    }
}

fn hand_kind(number: usize) -> HandKind
    requires { number < 3 }
    ensures { hand_place result ≡ number }
{
    match number {
        0 => HandKind::Chick,
        1 => HandKind::Elephant,
        _ => HandKind::Giraffe,
    }
}
