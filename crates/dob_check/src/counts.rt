// How many classes of a table have which value, counted in parts by as many threads as there are processors.
ghost use Rattle.std.specs.Prelude.{◌<◌, ◌^◌, IfOk, length};
ghost use Rattle.std.specs.List.{AllZip, range_with_len};
ghost use Rattle.dob_probe.specs.Slots.{AreSlots};
ghost use Rattle.dob_probe.specs.Statistics.{AreGroups};
ghost use Rattle.dob_check.specs.Parts.{IsPart, IsPlace, part_count};

use crate::parts::{PART, part_bounds, part_count};
use dob_pieces::Memory;
use dob_probe::{Group, add_slots, groups_of, slots_between};
use dob_value::Table;
use rayon::prelude::*;
use std::alloc::Global;
use std::snapshot::Snapshot;
use std::thread::Threads;

// What is counted of each code in a part of the classes.
#[derive(Drop)]
struct SlotPart {
    slots: Vec<Option<Group>>,
}

/// The groups of the table's classes that have one value: the draws first, if there are any, and then by ascending distance, so
/// odd ones of wins and even ones of losses. The last win and the last loss are the longest. Parts of the classes are counted by as
/// many threads as there are processors, and added up in their order.
pub fn statistics(
    rt: &(impl Threads + Sync),
    alloc: Global,
    table: &Table,
) -> Result<Vec<Group>, Memory>
    ensures { IfOk result (λ groups. AreGroups table.now.values groups.items) }
{
    let _family = table.family();
    // That classes are counted bounds their number.
    let _count = table.class_count();
    let parts = slots_of_parts(rt, alloc, table)?;
    let slots = joined_slots(alloc, Snapshot::of(table), &parts)?;
    groups_of(alloc, &slots)
}

// What is counted of each part, in their order; the last one may have no class.
fn slots_of_parts(
    rt: &(impl Threads + Sync),
    alloc: Global,
    table: &Table,
) -> Result<Vec<SlotPart>, Memory>
    ensures { IfOk result (λ parts. AllZip (IsPart table.now.values) (range_with_len 0 (part_count table.now.values)) parts.items) }
{
    (0..part_count(table))
        .into_par_iter()
        .map(
            |place: u64| -> Result<SlotPart, Memory>
                requires { IsPlace table.now.values place }
                ensures { IfOk result (IsPart table.entry.now.values place) }
            { slots_of_part(alloc, table, place) },
        )
        .collect::<Result<Vec<SlotPart>, Memory>>(rt, alloc)?
}

// What is counted of the part of that place.
fn slots_of_part(alloc: Global, table: &Table, place: u64) -> Result<SlotPart, Memory>
    requires { IsPlace table.now.values place }
    ensures { IfOk result (IsPart table.now.values place) }
{
    let (first, end) = part_bounds(table, place);
    let slots = slots_between(alloc, table, first, end)?;
    Ok(SlotPart { slots })
}

// What is counted of all parts.
fn joined_slots(
    alloc: Global,
    table: Snapshot<Table>,
    parts: &[SlotPart],
) -> Result<Vec<Option<Group>>, Memory>
    requires few { length table.value.values < 2 ^ 64 }
    requires parts { AllZip (IsPart table.value.values) (range_with_len 0 (part_count table.value.values)) parts.now }
    ensures { IfOk result (λ slots. AreSlots table.value.values slots.items) }
{
    let mut slots = Vec::new(alloc);
    for place in 0..parts.len() {
        add_slots(&mut slots, &parts[place].slots, place as u64 * PART)?;
    }
    Ok(slots)
}
