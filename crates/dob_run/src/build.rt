// A build by threads, from a family to its table.
ghost use Rattle.std.specs.Prelude.{ℕ, OnOk};
ghost use Rattle.dob_run.specs.Builds.{Builds};
ghost use Rattle.dob_crew.specs.CrewSizes.{AreThese};
ghost use Rattle.dob_crew.specs.Faults.{AreWithin};

use crate::build_end::finish;
use crate::built_table::Built;
use crate::crew_turns::{EndedCrew, run_crew};
use dob_crew::CrewSizes;
use dob_pieces::Family;
use dob_runner::{Gate, Until};
use dob_share::BuildFault;
use std::alloc::Global;
use std::sync::Wait;
use std::thread::Threads;

/// Builds the value table of the family by `nodes` nodes, each in a thread of its own, with batches of at most `batch_size`
/// items and inboxes that hold at most `capacity` batches: each asks the gate at the start of each turn, and the gate let each
/// go on at least once. Its promises hold if it returns.
///
/// # Errors
///
/// Tested in this order: `Nodes` if `nodes` isn't 1 to 16; `Sizes` if `batch_size` isn't 1 to 4096 or `capacity` not
/// 1 to 1024; then those of `build_by`.
pub fn run_nodes<R: Threads + Wait + Sync, G: Gate + Sync>(
    rt: &R,
    alloc: Global,
    family: Family,
    nodes: usize,
    batch_size: usize,
    capacity: usize,
    gate: &G,
) -> Result<Built, BuildFault>
    ensures builds { Builds (G.says gate.now) family nodes batch_size capacity result }
    ensures within { OnOk result (AreWithin nodes batch_size capacity) }
{
    let sizes = CrewSizes::new(nodes, batch_size, capacity)?;
    build_by(rt, alloc, family, &sizes, gate)
}

/// Builds as above, by a crew of these sizes.
///
/// # Errors
///
/// `Stopped` with the node that failed first and its cause, which is `Held` only if the gate said no to it, and `Memory` if no
/// thread could be made for it; `Memory`.
pub fn build_by<R: Threads + Wait + Sync, G: Gate + Sync>(
    rt: &R,
    alloc: Global,
    family: Family,
    sizes: &CrewSizes,
    gate: &G,
) -> Result<Built, BuildFault>
    ensures { (nodes batch_size capacity : ℕ) → AreThese nodes batch_size capacity sizes.now → Builds (G.says gate.now) family nodes batch_size capacity result }
{
    let EndedCrew {
        classes,
        board,
        runners,
    } = run_crew(rt, alloc, family, sizes, gate, &Until::Halted)?;
    finish(rt, alloc, classes, board, runners)
}
