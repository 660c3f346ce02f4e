// A crew from its opening to the end of its turns.
ghost use Rattle.std.specs.Prelude.{◌≡◌, ℕ, IfOk};
ghost use Rattle.dob_runner.specs.Runners.{says_no};
ghost use Rattle.dob_crew.specs.CrewSizes.{AreThese};
ghost use Rattle.dob_run.specs.CrewTurns.{AreLetOn, HasRun};

use dob_board::Blackboard;
use dob_classes::Classes;
use dob_crew::{CrewSizes, crew_of};
use dob_pieces::{Family, Memory};
use dob_runner::{Gate, Runner, Until};
use dob_threads::run_each;
use std::alloc::Global;
use std::sync::Wait;
use std::thread::Threads;

/// What a crew is after its turns: the classes of its family, its board, and what became of each runner.
#[derive(Drop)]
pub struct EndedCrew {
    pub classes: Classes,
    pub board: Blackboard,
    pub runners: Vec<Runner>,
}

/// Opens a crew of these sizes for the family, and lets its runners make their turns for so long, each in a thread of its own; a runner for which no
/// thread can be made makes none and fails for lack of memory. Its promises hold if it returns.
///
/// # Errors
///
/// `Memory`, which gives the crew up.
pub fn run_crew<R: Threads + Wait + Sync, G: Gate + Sync>(
    rt: &R,
    alloc: Global,
    family: Family,
    sizes: &CrewSizes,
    gate: &G,
    until: &Until,
) -> Result<EndedCrew, Memory>
    ensures family { IfOk result (λ crew. crew.classes.family ≡ family) }
    ensures ran { IfOk result (λ crew. (nodes batch_size capacity : ℕ) → AreThese nodes batch_size capacity sizes.now →
        HasRun (says_no (G.says gate.now)) until.now family nodes batch_size capacity crew.board crew.runners.items) }
    ensures let_on { IfOk result (λ crew. AreLetOn (G.says gate.now) until.now crew.runners.items) }
{
    let classes = Classes::open(alloc, family)?;
    let (board, runners) = crew_of(rt, alloc, &classes, sizes)?;
    let ended = run_each(rt, alloc, runners, &classes, gate, until)?;
    Ok(EndedCrew {
        classes,
        board,
        runners: ended,
    })
}
