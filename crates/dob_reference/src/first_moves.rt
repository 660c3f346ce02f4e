// The search for the first step or drop, in the move order.
ghost use Rattle.std.specs.Prelude.{◌≡◌};
ghost use Rattle.dob_pieces.specs.declared.profile.Profile.TheVariants as Profile;
ghost use Rattle.dob_moves.specs.Walks.{first, step_by, steps_by, steps_from, all_steps, drops_of, all_drops};

use dob_moves::{Aim, Move, own_kind, put_on, step_onto};
use dob_pieces::{HandKind, Kind, Setup, Square, Step};

/// The move by that step, if the board has the square and it is where the step is to end.
pub(crate) fn step_by(setup: &Setup, aim: Aim, kind: Kind, from: Square, step: Step) -> Option<Move>
    ensures { result ≡ step_by aim setup.now kind from step }
{
    match from.after(step) {
        Some(to) => step_onto(aim, setup.at(to), kind, from, to),
        None => None,
    }
}

// The first step of a piece of that kind on that square.
#[tactic(auto, using(crate::proofs::Firsts::firsts), unfolding(dob_moves::specs::Walks::steps_by))]
fn first_step_by(setup: &Setup, aim: Aim, kind: Kind, from: Square) -> Option<Move>
    ensures { result ≡ first (steps_by aim setup.now kind from) }
{
    for step in kind.steps() {
        let found = step_by(setup, aim, kind, from, *step);
        if found.is_some() {
            return found;
        }
    }
    None
}

#[tactic(auto, unfolding(dob_moves::specs::Walks::steps_from))]
fn first_step_from(setup: &Setup, aim: Aim, from: Square) -> Option<Move>
    ensures { result ≡ first (steps_from aim setup.now from) }
{
    match own_kind(setup.at(from)) {
        Some(kind) => first_step_by(setup, aim, kind, from),
        None => None,
    }
}

#[tactic(auto, using(crate::proofs::Firsts::firsts), unfolding(dob_moves::specs::Walks::all_steps))]
pub(crate) fn first_step(setup: &Setup, aim: Aim) -> Option<Move>
    ensures { result ≡ first (all_steps aim setup.now) }
{
    for index in 0..Square::COUNT {
        let step = first_step_from(setup, aim, Square::new(index));
        if step.is_some() {
            return step;
        }
    }
    None
}

// The first drop of a piece of that kind.
#[tactic(auto, using(crate::proofs::Firsts::firsts), unfolding(dob_moves::specs::Walks::drops_of))]
fn first_drop_of(setup: &Setup, kind: HandKind) -> Option<Move>
    ensures { result ≡ first (drops_of Profile.A setup.now kind) }
{
    if setup.hands.mover.count(kind) == 0 {
        return None;
    }
    for index in 0..Square::COUNT {
        let put = put_on(setup, kind, Square::new(index));
        if put.is_some() {
            return put;
        }
    }
    None
}

#[tactic(auto, using(crate::proofs::Firsts::firsts), unfolding(dob_moves::specs::Walks::all_drops))]
pub(crate) fn first_drop(setup: &Setup) -> Option<Move>
    ensures { result ≡ first (all_drops Profile.A setup.now) }
{
    let chick = first_drop_of(setup, HandKind::Chick);
    if chick.is_some() {
        return chick;
    }
    let elephant = first_drop_of(setup, HandKind::Elephant);
    if elephant.is_some() {
        return elephant;
    }
    first_drop_of(setup, HandKind::Giraffe)
}
