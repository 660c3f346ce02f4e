// Sweeps over the classes of a graph: after n of them each entry is its class's value cut off at depth n, and a sweep
// that changes nothing is the last.
ghost use Rattle.std.specs.Prelude.{◌≡◌, ℕ, ◌+◌, ◌<◌, ◌≤◌, length, All, IfOk, map, slice_index_or, true, false};
ghost use Rattle.std.specs.List.{list_any, list_all};
ghost use Rattle.dob_rank.specs.Families.{IsPositionOf};
ghost use Rattle.dob_rank.specs.Families.{classes_of};
ghost use Rattle.dob_distance.specs.declared.value.Value.TheVariants.{Draw};
ghost use Rattle.dob_distance.specs.Values.{Won, Lost};
ghost use Rattle.dob_distance.specs.Entries.{is_win_within, is_loss_within, is_draw, IsCutOff, TellsAt, HasDistance};
ghost use Rattle.dob_value.specs.ClassRows.{class_setup};
ghost use Rattle.dob_value.specs.Graphs.{IsNode, IsGraph, AreCutOff, AreSwept, AreValues, SomeHasDistance, value_at_start, status_at, successors_at};
ghost use Rattle.dob_distance.specs.Codes.{IsShort, IsEntry};
ghost use Rattle.dob_value.specs.Rosters.{SomeTooDeep};

use crate::graph::{Graph, graph_of};
use dob_classes::Classes;
use dob_distance::{MAX_DISTANCE, Value, ValueFault};
use dob_moves::Status;
use std::alloc::{AllocError, Global};

pub(crate) fn entry_at(values: &[Value], number: usize) -> Value
    requires { number < length values.now }
    ensures { result ≡ slice_index_or values.now number Draw }
{
    values[number]
}

// Whether some successor is lost within that depth.
fn has_lost(successors: &[usize], depth: u16, values: &[Value]) -> bool
    requires { All (λ number. number < length values.now) successors.now }
    ensures { result ≡ list_any (λ number. is_loss_within depth (slice_index_or values.now number Draw)) successors.now }
{
    successors
        .iter()
        .any(|number| entry_at(values, *number).is_loss_within(depth))
}

// Whether each successor is won within that depth.
fn are_won(successors: &[usize], depth: u16, values: &[Value]) -> bool
    requires { All (λ number. number < length values.now) successors.now }
    ensures { result ≡ list_all (λ number. is_win_within depth (slice_index_or values.now number Draw)) successors.now }
{
    successors
        .iter()
        .all(|number| entry_at(values, *number).is_win_within(depth))
}

// The value of a class at one depth more, from entries that hold all depths up to this one, where the class is
// neither won nor lost within this depth.
fn next_value(graph: &Graph, number: usize, depth: u16, values: &[Value]) -> Value
    requires below { depth ≤ MAX_DISTANCE }
    requires graph { IsGraph graph.now }
    requires within { number < classes_of graph.now.family }
    requires told { IsNode graph.now.family.profile (TellsAt graph.now.family.profile depth values.now) (class_setup graph.now.family number) (status_at graph.now number) (successors_at graph.now number) }
    requires not_won { ¬ Won graph.now.family.profile depth (class_setup graph.now.family number) }
    requires not_lost { ¬ Lost graph.now.family.profile depth (class_setup graph.now.family number) }
    ensures cut_off { IsCutOff graph.now.family.profile (depth + 1) (class_setup graph.now.family number) result }
    ensures distance { is_draw result ≡ false → HasDistance graph.now.family.profile (class_setup graph.now.family number) (depth + 1) }
{
    let status = graph.status_of(number);
    match status {
        Status::Caught => Value::Win(depth + 1),
        Status::Tried | Status::Stuck => first_value(status),
        Status::Open => {
            let successors = graph.successors_of(number);
            if has_lost(successors, depth, values) {
                Value::Win(depth + 1)
            } else if are_won(successors, depth, values) {
                Value::Loss(depth + 1)
            } else {
                Value::Draw
            }
        }
    }
}

// Sweeps over one entry, and says whether it has changed.
fn update(graph: &Graph, number: usize, depth: u16, values: &mut [Value]) -> bool
    requires below { depth ≤ MAX_DISTANCE }
    requires graph { IsGraph graph.now }
    requires within { number < classes_of graph.now.family }
    requires swept { AreSwept depth number graph.now.family values.old }
    ensures swept { AreSwept depth (number + 1) graph.now.family values.new }
    ensures found { result ≡ true → SomeHasDistance graph.now.family (depth + 1) }
    ensures same { result ≡ false → values.new ≡ values.old }
{
    if !entry_at(values, number).is_draw() {
        return false;
    }
    let value = next_value(graph, number, depth, values);
    if value.is_draw() {
        return false;
    }
    values[number] = value;
    true
}

// Sweeps over all entries, which are cut off at that depth, and says whether any has changed.
fn sweep_once(graph: &Graph, depth: u16, values: &mut [Value]) -> bool
    requires below { depth ≤ MAX_DISTANCE }
    requires graph { IsGraph graph.now }
    requires cut_off { AreCutOff depth graph.now.family values.old }
    ensures cut_off { AreCutOff (depth + 1) graph.now.family values.new }
    ensures found { result ≡ true → SomeHasDistance graph.now.family (depth + 1) }
    ensures same { result ≡ false → values.new ≡ values.old }
{
    let mut found = false;
    for number in 0..values.len() {
        if update(graph, number, depth, values) {
            found = true;
        }
    }
    found
}

/// The value cut off at depth 0 of a position with that status.
pub(crate) fn first_value(status: Status) -> Value
    ensures { result ≡ value_at_start status }
{
    match status {
        Status::Tried | Status::Stuck => Value::Loss(0),
        Status::Caught | Status::Open => Value::Draw,
    }
}

// The table before the first sweep.
fn first_values(alloc: Global, statuses: &[Status]) -> Result<Vec<Value>, AllocError>
    ensures { IfOk result (λ values. values.items ≡ map value_at_start statuses.now) }
{
    statuses
        .iter()
        .map(|status| first_value(*status))
        .collect(alloc)
}

// The value of each class of the graph. It sweeps until nothing changes.
//
// Errors: `TooDeep` if some distance is above `MAX_DISTANCE`, as then is the number of classes, and `Memory`.
fn settle(alloc: Global, graph: &Graph) -> Result<Vec<Value>, ValueFault>
    requires { IsGraph graph.now }
    ensures values { IfOk result (λ values. AreValues graph.now.family values.items) }
    ensures short { IfOk result (λ values. All IsShort values.items) }
    ensures deep { result ≡ Err ValueFault.TooDeep → (n : ℕ) × (MAX_DISTANCE < n) × SomeHasDistance graph.now.family n }
    ensures many { result ≡ Err ValueFault.TooDeep → MAX_DISTANCE < classes_of graph.now.family }
{
    let mut values = first_values(alloc, &graph.statuses)?;
    let mut depth = 0;
    while sweep_once(graph, depth, &mut values) {
        depth += 1;
        if depth > MAX_DISTANCE {
            return Err(ValueFault::TooDeep);
        }
    }
    Ok(values)
}

/// The value of each class, in the order of their numbers.
///
/// # Errors
///
/// `TooDeep` if some distance is above `MAX_DISTANCE`, as then is the number of classes, and `Memory`.
pub(crate) fn sweep(alloc: Global, classes: &Classes) -> Result<Vec<Value>, ValueFault>
    ensures values { IfOk result (λ values. AreValues classes.now.family values.items) }
    ensures entries { IfOk result (λ values. All IsEntry values.items) }
    ensures deep { result ≡ Err ValueFault.TooDeep → SomeTooDeep classes.now.family.profile (IsPositionOf classes.now.family) }
    ensures many { result ≡ Err ValueFault.TooDeep → MAX_DISTANCE < classes_of classes.now.family }
{
    let graph = graph_of(alloc, classes)?;
    settle(alloc, &graph)
}
