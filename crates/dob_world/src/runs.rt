// Events one after another.
ghost use Rattle.std.specs.Prelude.{◌≡◌, ◌^◌, ◌<◌, ◌≤◌, ◌⊎◌, length, IfOk, IfErr};
ghost use Rattle.dob_rank.specs.Families.{classes_of};
ghost use Rattle.dob_world.specs.Worlds.{setting_by};
ghost use Rattle.dob_world.specs.Results.{HasSettingFault, HasRunEvents, HasStoppedAt};
ghost use Rattle.dob_world.specs.Stops.{IsForMemory};

use crate::event::Event;
use crate::world::World;
use dob_pieces::Family;
use dob_share::BuildFault;
use std::alloc::Global;

/// The world of `nodes` nodes, with batches of at most `batch` items and links with room for `capacity` batches, after the
/// events in order. Those that can't happen are skipped.
///
/// # Errors
///
/// Those of `World::open`; `Stopped`, if one of the events stops a node, but never because an item contradicts its
/// cell, and in a set of fewer than 65,535 classes for lack of memory alone. In the world each settlement stands first in a
/// list of settlements of different classes whose distances fall by one down to a win in one ply or a loss in none, and no
/// distance is above the number of classes.
pub fn run(
    alloc: Global,
    family: Family,
    nodes: usize,
    batch: usize,
    capacity: usize,
    events: &[Event],
) -> Result<World, BuildFault>
    requires few { length events.now ≤ 2 ^ 40 }
    ensures run { IfOk result (λ world. HasRunEvents (setting_by family nodes batch capacity) events.now world) }
    ensures memory { classes_of family < 65535 → IfErr result (λ fault. HasSettingFault (setting_by family nodes batch capacity) fault ⊎ IsForMemory fault) }
    ensures fault { IfErr result (λ fault. HasSettingFault (setting_by family nodes batch capacity) fault
        ⊎ HasStoppedAt (setting_by family nodes batch capacity) events.now fault) }
{
    let mut world = match World::open(alloc, family, nodes, batch, capacity) {
        Ok(world) => world,
        Err(fault) => return Err(fault),
    };
    for event in events {
        match world.step(*event) {
            Ok(_) => {}
            Err(fault) => return Err(fault),
        }
    }
    Ok(world)
}
