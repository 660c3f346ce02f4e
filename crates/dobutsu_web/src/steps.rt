// The moves of a position, one by one by their places in the move order.
ghost use Rattle.std.specs.Prelude.{◌≡◌, ◌≢◌, ◌<◌, ℕ, MatchOption};
ghost use Rattle.dob_pieces.specs.declared.profile.Family.{Family as AnyFamily};
ghost use Rattle.dob_pieces.specs.declared.setup.Setup.{Setup as AnySetup};
ghost use Rattle.dob_moves.specs.declared.game_move.Move.{Move as AnyMove};
ghost use Rattle.dob_moves.specs.AtPlaces.{IsMoveAt};
ghost use Rattle.dob_rank.specs.Families.{IsPositionOf};
ghost use Rattle.dobutsu_web.specs.Asked.{IsTextAsked, IsRefused};
ghost use Rattle.dobutsu_web.specs.Rows.{IsRightRow};
ghost use Rattle.dobutsu_web.specs.Steps.{IsMoveAtPlace, HasNone, HasNoMove, IsShownMove, IsStepShown, IsToldStep, IsToldClassAfter, IsOutcomeAt, placed_step};

use crate::asked::{Asked, ask};
use crate::numbers::{NO_MOVE, NO_ROW};
use crate::rows::class_below;
use dob_classes::block_number;
use dob_foreign::{DobutsuStep, shown_step};
use dob_moves::{Move, catch_at, move_at};
use dob_value::outcome_of;

/// A move, and the block of the position that it leads to, 0 of a step that catches the lion.
#[repr(C)]
#[derive(Clone, Copy)]
pub struct DobutsuPlacedStep {
    pub block: u64,
    pub step: DobutsuStep,
}

/// The move of an open position at that place of the move order, or where the enemy lion can be caught the step at that place that catches it. The
/// place of a step is 12 times the square that it leaves and the square that it reaches, that of a drop 144, 12 times its kind and the square. It answers
/// 0 and writes the move, 28 if there is none at that place, or a fault as `dobutsu_class` does.
#[unsafe(no_mangle)]
pub extern "C" fn dobutsu_move(
    text: &[u8],
    profile: u32,
    place: u32,
    step: &mut DobutsuPlacedStep,
) -> u32
    ensures told { result ≡ 0 → IsToldStep text.now profile place step.new }
    ensures none { result ≡ 28 → HasNone text.now profile place }
    ensures refused { result ≢ 0 → result ≢ 28 → IsRefused text.now profile result }
    ensures unchanged { result ≢ 0 → step.new ≡ step.old }
{
    match ask(text, profile) {
        Ok(asked) => match step_at(&asked, place as usize) {
            Some(found) => {
                *step = found;
                0
            }
            None => NO_MOVE,
        },
        Err(refusal) => refusal.number(),
    }
}

/// The class of the position that the move of an open position at that place leads to, by the row of its block. `classes` and the row are as those of
/// `dobutsu_class_by`. It answers 0 and writes the class's number, 28 if the position has no move at that place, 29 as `dobutsu_class_by`, or a fault as
/// `dobutsu_class` does.
#[unsafe(no_mangle)]
pub extern "C" fn dobutsu_class_after(
    text: &[u8],
    profile: u32,
    place: u32,
    row: &[u64],
    classes: u64,
    class: &mut u64,
) -> u32
    ensures told { result ≡ 0 → IsToldClassAfter text.now profile place row.now class.new }
    ensures below { result ≡ 0 → class.new < classes }
    ensures none { result ≡ 28 → HasNoMove text.now profile place }
    ensures row { result ≡ 29 → (family : AnyFamily) × (setup : AnySetup) × (outcome : AnySetup) × IsTextAsked text.now profile family setup
        × IsOutcomeAt family setup place outcome × ¬ IsRightRow family outcome row.now classes }
    ensures refused { result ≢ 0 → result ≢ 28 → result ≢ 29 → IsRefused text.now profile result }
    ensures unchanged { result ≢ 0 → class.new ≡ class.old }
{
    match ask(text, profile) {
        Ok(asked) => match move_at(asked.family.profile, &asked.position, place as usize) {
            Some(played) => {
                let outcome = outcome_of(asked.family, &asked.position, played);
                match class_below(asked.family, row, classes, &outcome) {
                    Some(found) => {
                        *class = found;
                        0
                    }
                    None => NO_ROW,
                }
            }
            None => NO_MOVE,
        },
        Err(refusal) => refusal.number(),
    }
}

/// The move of an open position at that place, or the step that catches the lion.
pub(crate) fn move_by_place(asked: &Asked, place: usize) -> Option<Move>
    ensures { MatchOption result
        ((m : AnyMove) → ¬ IsMoveAtPlace asked.now.family.profile asked.now.position.setup place m)
        (IsMoveAtPlace asked.now.family.profile asked.now.position.setup place) }
{
    match move_at(asked.family.profile, &asked.position, place) {
        Some(played) => Some(played),
        None => catch_at(&asked.position, place),
    }
}

// The step, as it is shown.
fn step_at(asked: &Asked, place: usize) -> Option<DobutsuPlacedStep>
    requires { IsPositionOf asked.now.family asked.now.position.setup }
    ensures { MatchOption result
        ((m : AnyMove) → ¬ IsMoveAtPlace asked.now.family.profile asked.now.position.setup place m)
        (IsStepShown asked.now.family asked.now.position.setup place) }
{
    match move_at(asked.family.profile, &asked.position, place) {
        Some(played) => Some(step_of_move(asked, &played)),
        None => match catch_at(&asked.position, place) {
            Some(played) => Some(placed_step(played, 0)),
            None => None,
        },
    }
}

// A move with the block of what it leads to.
fn step_of_move(asked: &Asked, played: &Move) -> DobutsuPlacedStep
    requires member { IsPositionOf asked.now.family asked.now.position.setup }
    requires played { (place : ℕ) × IsMoveAt asked.now.family.profile asked.now.position.setup place played.now }
    ensures { (place : ℕ) → IsMoveAt asked.now.family.profile asked.now.position.setup place played.now
        → IsShownMove asked.now.family asked.now.position.setup place result }
{
    let outcome = outcome_of(asked.family, &asked.position, *played);
    placed_step(*played, block_number(asked.family, &outcome))
}

// The move as it is shown.
fn placed_step(played: Move, block: u64) -> DobutsuPlacedStep
    ensures { result ≡ placed_step played block }
{
    let step = shown_step(played);
    DobutsuPlacedStep { block, step }
}
