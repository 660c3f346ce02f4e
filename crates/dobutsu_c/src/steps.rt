// The moves of a position without a file, and the position after a move.
ghost use Rattle.std.specs.Prelude.{◌≡◌, ◌≢◌, ◌⊎◌, ◌↔◌, List, IsTrue, IfOk, MatchOption, Contains, length};
ghost use Rattle.dob_pieces.specs.declared.profile.Family.{Family as AnyFamily};
ghost use Rattle.dob_pieces.specs.declared.setup.Setup.{Setup as AnySetup};
ghost use Rattle.dob_moves.specs.declared.game_move.Move.{Move as AnyMove};
ghost use Rattle.dob_moves.specs.declared.position_status.Status.{Status as AnyStatus};
ghost use Rattle.dob_moves.specs.declared.position_status.Status.TheVariants.{Open};
ghost use Rattle.dob_moves.specs.Moves.{CanGo, Goes};
ghost use Rattle.dob_moves.specs.Statuses.{HasStatus};
ghost use Rattle.dob_foreign.specs.Moves.{shown_step};
ghost use Rattle.dob_foreign.specs.Statuses.{status_number};
ghost use Rattle.dobutsu_c.specs.Positions.{IsNumbersAsked, IsRefused, IsShown};
ghost use Rattle.dobutsu_c.specs.Steps.{AreSteps, AreWrittenSteps};

use crate::numbered::{Numbered, ask_numbers};
use crate::numbers::{MEMORY, NO_MOVE};
use crate::positions::{DobutsuPosition, shown_position};
use dob_foreign::{DobutsuStep, shown_step, status_number};
use dob_moves::{Move, apply, first_catch, moves, status};
use dob_pieces::Memory;
use std::alloc::Global;

/// The status of a position by the profile of that number, 0 if it is open, 1 if the enemy lion can be caught, 2 if it has tried, 3 if there is no
/// move; and its moves in the move order. Where the enemy lion can be caught there is its first catch alone, and none if the position is lost already. It
/// answers 0, writes the status, how many moves there are into `count` and the first of them into `steps`, as many as there is room for; or a fault and writes
/// nothing: those of `dobutsu_class`, or 23 if memory runs out, it takes some thousand bytes and gives all back.
#[unsafe(no_mangle)]
pub extern "C" fn dobutsu_steps(
    alloc: Global,
    position: &DobutsuPosition,
    profile: u32,
    steps: &mut [DobutsuStep],
    count: &mut u64,
    status_is: &mut u32,
) -> u32
    ensures told { result ≡ 0 → (family : AnyFamily) × (setup : AnySetup) × (list : List AnyMove) × IsNumbersAsked position.now profile family setup
        × AreSteps family.profile setup list × AreWrittenSteps list steps.old steps.new × (count.new ≡ length list) }
    ensures status { result ≡ 0 → (family : AnyFamily) × (setup : AnySetup) × (of : AnyStatus) × IsNumbersAsked position.now profile family setup
        × HasStatus family.profile setup of × (status_is.new ≡ status_number of) }
    ensures refused { result ≢ 0 → (result ≡ 23) ⊎ IsRefused position.now profile result }
    ensures memory { result ≡ 23 → (family : AnyFamily) × (setup : AnySetup) × IsNumbersAsked position.now profile family setup }
    ensures unchanged { result ≢ 0 → (steps.new ≡ steps.old) × (count.new ≡ count.old) × (status_is.new ≡ status_is.old) }
{
    let asked = match ask_numbers(position, profile) {
        Ok(asked) => asked,
        Err(refusal) => return refusal.number(),
    };
    match steps_of(alloc, &asked) {
        Ok(list) => {
            write_steps(steps, &list);
            *count = list.len() as u64;
            *status_is = status_number(status(asked.family.profile, &asked.position));
            0
        }
        Err(Memory) => MEMORY,
    }
}

/// The position after a move of an open position, seen from the side that moves next. The move is one that `dobutsu_steps` lists of it. It answers 0 and writes
/// the position, or a fault and writes nothing: those of `dobutsu_steps`, or 28 if the position isn't open or has no such move.
#[unsafe(no_mangle)]
pub extern "C" fn dobutsu_make(
    alloc: Global,
    position: &DobutsuPosition,
    profile: u32,
    step: &DobutsuStep,
    after: &mut DobutsuPosition,
) -> u32
    ensures told { result ≡ 0 → (family : AnyFamily) × (setup : AnySetup) × (played : AnyMove) × (outcome : AnySetup)
        × IsNumbersAsked position.now profile family setup × HasStatus family.profile setup Open × Goes family.profile setup played outcome
        × (shown_step played ≡ step.now) × IsShown after.new outcome }
    ensures none { result ≡ 28 → (family : AnyFamily) × (setup : AnySetup) × IsNumbersAsked position.now profile family setup
        × ((played : AnyMove) → HasStatus family.profile setup Open → CanGo family.profile setup played → shown_step played ≢ step.now) }
    ensures refused { result ≢ 0 → result ≢ 28 → (result ≡ 23) ⊎ IsRefused position.now profile result }
    ensures memory { result ≡ 23 → (family : AnyFamily) × (setup : AnySetup) × IsNumbersAsked position.now profile family setup }
    ensures unchanged { result ≢ 0 → after.new ≡ after.old }
{
    let asked = match ask_numbers(position, profile) {
        Ok(asked) => asked,
        Err(refusal) => return refusal.number(),
    };
    let Ok(list) = moves(alloc, asked.family.profile, &asked.position) else {
        return MEMORY;
    };
    match step_among(&list, step) {
        Some(played) => {
            *after = shown_position(&apply(&asked.position, played));
            0
        }
        None => NO_MOVE,
    }
}

// The moves, or the first catch of the lion alone.
//
// Error: `Memory`.
fn steps_of(alloc: Global, asked: &Numbered) -> Result<Vec<Move>, Memory>
    ensures { IfOk result (λ list. AreSteps asked.now.family.profile asked.now.position.setup list.items) }
{
    match first_catch(&asked.position) {
        Some(played) => {
            let mut list = Vec::new(alloc);
            list.push(played)?;
            Ok(list)
        }
        None => moves(alloc, asked.family.profile, &asked.position),
    }
}

// Writes the first of the moves, as many as there are places.
fn write_steps(places: &mut [DobutsuStep], list: &[Move])
    ensures { AreWrittenSteps list.now places.old places.new }
{
    let count = list.len().min(places.len());
    for place in 0..count {
        places[place] = shown_step(list[place]);
    }
}

// The move of the list that has those numbers.
fn step_among(list: &[Move], step: &DobutsuStep) -> Option<Move>
    ensures { MatchOption result
        ((m : AnyMove) → Contains list.now m → shown_step m ≢ step.now)
        (λ m. Contains list.now m × (shown_step m ≡ step.now)) }
{
    for played in list {
        if is_shown(*played, step) {
            return Some(*played);
        }
    }
    None
}

// Whether the move has those numbers.
fn is_shown(played: Move, step: &DobutsuStep) -> bool
    ensures { IsTrue result ↔ (shown_step played ≡ step.now) }
{
    let shown = shown_step(played);
    shown.kind == step.kind
        && shown.from == step.from
        && shown.to == step.to
        && shown.catches == step.catches
        && shown.grows == step.grows
}
