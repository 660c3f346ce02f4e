// How many of some classes of a table have which value, and which class is the first to have it: counted part by part, and added up.
ghost use Rattle.std.specs.Prelude.{◌≡◌, ◌+◌, ◌-◌, ◌<◌, ◌≤◌, ◌^◌, ℕ, None, List, length, Some, get_or, [], ◌∷◌, ◌++◌, IfOk, OnOk, vec_len, All, option_to_list};
ghost use Rattle.dob_distance.specs.declared.value.Value.{Value as Valued};
ghost use Rattle.dob_distance.specs.Codes.{code_of_value, IsEntry};
ghost use Rattle.dob_probe.specs.Statistics.{AreGroups};
ghost use Rattle.dob_probe.specs.Slots.{AreSlots, both_slots, part_of, with_class, HasRoom};

use dob_pieces::Memory;
use dob_value::{Table, Value, code_of_value};
use std::alloc::Global;

/// The classes of one value: how many they are, and the number of the first, whose representative is an example.
#[derive(Clone, Copy)]
pub struct Group {
    pub value: Value,
    pub classes: u64,
    pub first: u64,
}

/// What is counted of each code among the classes from `first` on, before `end`, as a list in their order: nothing, or the group of its classes, whose
/// first one is given by its place in that list. It takes some 32 bytes for each distance up to the greatest.
pub fn slots_between(
    alloc: Global,
    table: &Table,
    first: u64,
    end: u64,
) -> Result<Vec<Option<Group>>, Memory>
    requires order { first ≤ end }
    requires within { end ≤ length table.now.values }
    ensures { IfOk result (λ slots. AreSlots (part_of table.now.values first (end - first)) slots.items) }
{
    let _family = table.family();
    let mut slots = Vec::new(alloc);
    for class in first..end {
        count_class(&mut slots, table.value(class), class - first)?;
    }
    Ok(slots)
}

// Counts a class of that value in the slot of its code.
//
// Error: `Memory`.
fn count_class(slots: &mut Vec<Option<Group>>, value: Value, class: u64) -> Result<(), Memory>
    requires entry { IsEntry value }
    requires room { class + 1 < 2 ^ 64 }
    requires slots { (values : List Valued) × (length values ≡ class) × AreSlots values slots.old.items }
    ensures { OnOk result ((values : List Valued) → length values ≡ class → AreSlots values slots.old.items → AreSlots (values ++ value ∷ []) slots.new.items) }
{
    let code = code_of_value(value) as usize;
    make_room(slots, code)?;
    let slot = slots[code];
    slots[code] = Some(with_class(slot, value, class));
    Ok(())
}

// Empty slots up to that code, if there are none.
//
// Error: `Memory`.
fn make_room(slots: &mut Vec<Option<Group>>, code: usize) -> Result<(), Memory>
    ensures room { OnOk result (code < vec_len slots.new) }
    ensures long { OnOk result (code < length slots.new.items) }
    ensures same { OnOk result ((k : ℕ) → get_or slots.new.items k None ≡ get_or slots.old.items k None) }
{
    while slots.len() <= code {
        slots.push(None)?;
    }
    Ok(())
}

// The slot's group with one class more.
fn with_class(slot: Option<Group>, value: Value, class: u64) -> Group
    requires { HasRoom slot }
    ensures { result ≡ with_class slot value class }
{
    match slot {
        Some(group) => Group {
            classes: group.classes + 1,
            ..group
        },
        None => Group {
            value,
            classes: 1,
            first: class,
        },
    }
}

/// Adds what is counted of some classes to what is counted of the `classes` before them. Both together fit where one list can
/// have them all.
///
/// # Errors
///
/// `Memory`, and the first slots are as good as before.
pub fn add_slots(
    slots: &mut Vec<Option<Group>>,
    more: &[Option<Group>],
    classes: u64,
) -> Result<(), Memory>
    ensures { OnOk result ((values rest : List Valued) → length values ≡ classes → length (values ++ rest) < 2 ^ 64
        → AreSlots values slots.old.items → AreSlots rest more.now → AreSlots (values ++ rest) slots.new.items) }
{
    for code in 0..more.len() {
        make_room(slots, code)?;
        let slot = slots[code];
        let further = more[code];
        slots[code] = both_slots(slot, further, classes);
    }
    Ok(())
}

// What is counted of a code in both parts of the classes; the first part has `classes`.
fn both_slots(slot: Option<Group>, more: Option<Group>, classes: u64) -> Option<Group>
    ensures { result ≡ both_slots slot more classes }
{
    match (slot, more) {
        (Some(group), Some(further)) => Some(Group {
            classes: group.classes.wrapping_add(further.classes),
            ..group
        }),
        (None, Some(further)) => Some(Group {
            first: classes.wrapping_add(further.first),
            ..further
        }),
        (Some(_), None) => slot,
        (None, None) => None,
    }
}

/// The groups of the slots that have one: the draws first, if there are any, and then by ascending distance, so odd ones of wins and even ones
/// of losses. The last win and the last loss are the longest.
pub fn groups_of(alloc: Global, slots: &[Option<Group>]) -> Result<Vec<Group>, Memory>
    ensures { IfOk result (λ groups. (values : List Valued) → All IsEntry values → AreSlots values slots.now → AreGroups values groups.items) }
{
    let mut groups = Vec::new(alloc);
    for slot in slots {
        push_group(&mut groups, *slot)?;
    }
    Ok(groups)
}

// Appends the group, if there is one.
//
// Error: `Memory`.
fn push_group(groups: &mut Vec<Group>, slot: Option<Group>) -> Result<(), Memory>
    ensures { OnOk result (groups.new.items ≡ groups.old.items ++ option_to_list slot) }
{
    match slot {
        Some(group) => Ok(groups.push(group)?),
        None => Ok(()),
    }
}
