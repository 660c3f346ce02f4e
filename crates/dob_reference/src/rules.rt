// The reference program of the rules, square by square as the definitions go: the status of a position, and its moves.
ghost use Rattle.std.specs.Prelude.{◌↔◌, ◌≡◌, ◌++◌, IfOk, OnOk, IsTrue, MatchOption, option_to_list};
ghost use Rattle.dob_pieces.specs.declared.profile.Profile.TheVariants.{A};
ghost use Rattle.dob_pieces.specs.Setups.{at, piece_of};
ghost use Rattle.dob_moves.specs.Moves.{CanGo};
ghost use Rattle.dob_moves.specs.Statuses.{AreMoves, CanCatch, HasTried, HasStatus, IsFirstCatch};
ghost use Rattle.dob_moves.specs.Walks.{steps_by, steps_from, all_steps, put_on, drops_of, all_drops};
ghost use Rattle.dob_moves.specs.declared.first_moves.Aim.TheVariants.{Elsewhere};
ghost use Rattle.dob_moves.specs.declared.game_move.Move.{Move as Moved};

use crate::first_moves::{first_drop, first_step, step_by};
use dob_moves::{Aim, Move, Status, own_kind, put_on};
use dob_pieces::{HandKind, Kind, Memory, Piece, Position, Profile, Setup, Side, Square};
use std::alloc::Global;

/// The first step in the move order that catches the enemy lion, or `None` if no step does.
#[tactic(auto, using(dob_moves::proofs::Verdicts::catch_answer))]
pub fn first_catch(position: &Position) -> Option<Move>
    ensures { MatchOption result (¬ CanCatch position.now.setup) (λ m. IsFirstCatch position.now.setup m) }
{
    first_step(&position.setup, Aim::AtLion)
}

// Whether the enemy lion stands on that square.
fn holds_enemy_lion(position: &Position, square: Square) -> bool
    ensures { IsTrue result ↔ (at position.now.setup square ≡ Some (piece_of Side.Enemy Kind.Lion)) }
{
    matches!(
        position.setup.at(square),
        Some(Piece {
            side: Side::Enemy,
            kind: Kind::Lion
        })
    )
}

// Whether the enemy lion stands on row 1.
fn has_tried(position: &Position) -> bool
    ensures { IsTrue result ↔ HasTried position.now.setup }
{
    holds_enemy_lion(position, Square::new(0))
        || holds_enemy_lion(position, Square::new(1))
        || holds_enemy_lion(position, Square::new(2))
}

// Whether a step, other than onto the enemy lion, or a drop of the mover is found.
fn finds_move(position: &Position) -> bool
    ensures { IsTrue result ↔ ((move : Moved) × CanGo A position.now.setup move) }
{
    first_step(&position.setup, Aim::Elsewhere).is_some() || first_drop(&position.setup).is_some()
}

/// The status of the position by the rules of a profile: a catch is looked for first, then a try, then a move.
#[tactic(auto, using(dob_moves::proofs::Shared::share_status))]
pub fn status(profile: Profile, position: &Position) -> Status
    ensures { HasStatus profile position.now.setup result }
{
    // Each profile has the statuses of profile A, so only the contract names this one.
    let _ = profile;
    status_in_a(position)
}

// The same by the rules of profile A.
fn status_in_a(position: &Position) -> Status
    ensures { HasStatus A position.now.setup result }
{
    if first_catch(position).is_some() {
        Status::Caught
    } else if has_tried(position) {
        Status::Tried
    } else if finds_move(position) {
        Status::Open
    } else {
        Status::Stuck
    }
}

// Appends the move, if there is one.
fn push_found(moves: &mut Vec<Move>, found: Option<Move>) -> Result<(), Memory>
    ensures { OnOk result (moves.new.items ≡ moves.old.items ++ option_to_list found) }
{
    if let Some(found) = found {
        moves.push(found)?;
    }
    Ok(())
}

// Appends the steps of a piece of that kind on that square, other than onto the enemy lion.
#[tactic(auto, using(crate::proofs::Appending::appends), unfolding(dob_moves::specs::Walks::steps_by))]
fn push_steps_by(
    moves: &mut Vec<Move>,
    setup: &Setup,
    kind: Kind,
    from: Square,
) -> Result<(), Memory>
    ensures { OnOk result (moves.new.items ≡ moves.old.items ++ steps_by Elsewhere setup.now kind from) }
{
    for step in kind.steps() {
        let found = step_by(setup, Aim::Elsewhere, kind, from, *step);
        push_found(moves, found)?;
    }
    Ok(())
}

// Appends the mover's steps from that square.
#[tactic(auto, using(crate::proofs::Appending::appends), unfolding(dob_moves::specs::Walks::steps_from))]
fn push_steps_from(moves: &mut Vec<Move>, setup: &Setup, from: Square) -> Result<(), Memory>
    ensures { OnOk result (moves.new.items ≡ moves.old.items ++ steps_from Elsewhere setup.now from) }
{
    match own_kind(setup.at(from)) {
        Some(kind) => push_steps_by(moves, setup, kind, from),
        None => Ok(()),
    }
}

// Appends the mover's steps.
#[tactic(auto, using(crate::proofs::Appending::appends), unfolding(dob_moves::specs::Walks::all_steps))]
fn push_steps(moves: &mut Vec<Move>, setup: &Setup) -> Result<(), Memory>
    ensures { OnOk result (moves.new.items ≡ moves.old.items ++ all_steps Elsewhere setup.now) }
{
    for index in 0..Square::COUNT {
        push_steps_from(moves, setup, Square::new(index))?;
    }
    Ok(())
}

// The drop of that kind on that square by the rules of the profile, if nothing stands there.
fn put_by(profile: Profile, setup: &Setup, kind: HandKind, to: Square) -> Option<Move>
    ensures { result ≡ put_on profile setup.now kind to }
{
    let piece = Piece {
        side: Side::Mover,
        kind: kind.on_board(),
    };
    if !profile.may_stand(to, Some(piece)) {
        return None;
    }
    put_on(setup, kind, to)
}

// Appends the drops of that kind.
#[tactic(auto, using(crate::proofs::Appending::appends), unfolding(dob_moves::specs::Walks::drops_of))]
fn push_drops_of(
    profile: Profile,
    moves: &mut Vec<Move>,
    setup: &Setup,
    kind: HandKind,
) -> Result<(), Memory>
    ensures { OnOk result (moves.new.items ≡ moves.old.items ++ drops_of profile setup.now kind) }
{
    if setup.hands.mover.count(kind) == 0 {
        return Ok(());
    }
    for index in 0..Square::COUNT {
        let put = put_by(profile, setup, kind, Square::new(index));
        push_found(moves, put)?;
    }
    Ok(())
}

// Appends the drops.
#[tactic(auto, using(crate::proofs::Appending::appends), unfolding(dob_moves::specs::Walks::all_drops))]
fn push_drops(profile: Profile, moves: &mut Vec<Move>, setup: &Setup) -> Result<(), Memory>
    ensures { OnOk result (moves.new.items ≡ moves.old.items ++ all_drops profile setup.now) }
{
    push_drops_of(profile, moves, setup, HandKind::Chick)?;
    push_drops_of(profile, moves, setup, HandKind::Elephant)?;
    push_drops_of(profile, moves, setup, HandKind::Giraffe)
}

/// The moves of an open position by the rules of a profile, each once, in the move order; no moves of any other position. Fails
/// if memory runs out.
pub fn moves(alloc: Global, profile: Profile, position: &Position) -> Result<Vec<Move>, Memory>
    ensures { IfOk result (λ v. AreMoves profile position.now.setup v.items) }
{
    let mut moves = Vec::new(alloc);
    match status(profile, position) {
        Status::Open => {
            push_steps(&mut moves, &position.setup)?;
            push_drops(profile, &mut moves, &position.setup)?;
            Ok(moves)
        }
        _ => Ok(moves),
    }
}
