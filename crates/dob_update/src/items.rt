// The items that a settlement makes.
ghost use Rattle.std.specs.Prelude.{◌≡◌, ◌<◌, ◌++◌, ℕ, take, OnOk, OnErr};
ghost use Rattle.dob_share.specs.Items.{items_of};

use dob_pieces::Memory;
use dob_share::{Item, Settlement, item_for, owner};

/// Appends the settlement's items for the owner `to`, one of `nodes`: one for each of the predecessors of its class that are
/// this owner's, in their order. After `Memory` those for the first of the predecessors, however many, are appended.
pub fn push_items(
    items: &mut Vec<Item>,
    settlement: Settlement,
    predecessors: &[u64],
    nodes: usize,
    to: usize,
) -> Result<(), Memory>
    requires { 0 < nodes }
    ensures all { OnOk result (items.new.items ≡ items.old.items ++ items_of (λ _. predecessors.now) nodes to settlement) }
    ensures first { OnErr result ((k : ℕ) × (items.new.items ≡ items.old.items ++ items_of (λ _. take k predecessors.now) nodes to settlement)) }
{
    for class in predecessors {
        if owner(*class, nodes) == to {
            items.push(item_for(settlement, *class))?;
        }
    }
    Ok(())
}
