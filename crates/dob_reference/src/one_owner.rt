// One node that owns all classes of a family, and makes its value table alone.
ghost use Rattle.std.specs.Prelude.{◌≡◌, ℕ, ◌+◌, ◌<◌, ◌≤◌, ◌⊎◌, true, false, None, Err, IfOk, IfErr, IfSome, OnOk, IsErrOf};
ghost use Rattle.dob_pieces.specs.declared.profile.Family.{Family as Set};
ghost use Rattle.dob_rank.specs.Families.{classes_of};
ghost use Rattle.dob_value.specs.Follows.{IsValueTable};
ghost use Rattle.dob_share.specs.Shares.{IsOwn, HasValueNow};
ghost use Rattle.dob_node.specs.Nodes.{IsSound};
ghost use Rattle.dob_reference.specs.Faults.{IsFaultOf};
ghost use Rattle.dob_reference.specs.Alone.{HasMade, IsDone, IsUnderWay, IsDoneWithin, HasStoppedAlone, IsTooDeepWithin};

use crate::fault::Fault;
use dob_classes::Classes;
use dob_history::opening;
use dob_lists::SegmentLength;
use dob_node::Node;
use dob_pieces::{Family, Memory};
use dob_safra::NodeCount;
use dob_share::Cause;
use dob_value::{Table, Value};
use std::alloc::Global;

/// The value table of a family, made by one node that owns all its classes in at most `limit` steps: each applies the
/// first of its own items, or if it has none is an expansion. `None` if the node has something left to do after them.
///
/// # Errors
///
/// `TooDeep` if a class came to a value with a distance above the greatest that is kept, which doesn't happen to a
/// family of fewer than 65,535 classes; `Memory`. An item that doesn't fit its cell never comes.
pub fn alone(alloc: Global, family: Family, limit: u64) -> Result<Option<Table>, Fault>
    ensures too_deep { result ≡ Err Fault.TooDeep → IsTooDeepWithin family limit }
    ensures few { classes_of family < 65535 → ¬ (result ≡ Err Fault.TooDeep) }
    ensures fits { (class : ℕ) → ¬ (result ≡ Err (Fault.Contradiction class)) }
    ensures family { IfOk result (λ given. IfSome given (λ table. table.family ≡ family)) }
    ensures table { IfOk result (λ given. IfSome given (λ table. IsValueTable family table.values)) }
    ensures none { result ≡ Ok None → IsUnderWay family limit }
    ensures done { IfOk result (λ given. IfSome given (λ table. IsDoneWithin family limit)) }
{
    let classes = Classes::open(alloc, family)?;
    let node = begin(alloc, &classes, family)?;
    let Some(ended) = finish(node, &classes, limit)? else {
        return Ok(None);
    };
    let table = table_of(alloc, ended, classes)?;
    Ok(Some(table))
}

// The node of all classes, before its first step.
fn begin(alloc: Global, classes: &Classes, family: Family) -> Result<Node, Memory>
    requires { classes.now.family ≡ family }
    ensures family { IfOk result (λ node. node.family ≡ family) }
    ensures made { IfOk result (λ node. HasMade 0 node) }
    ensures going { IfOk result (λ node. node.failed ≡ None) }
{
    let openings = opening(alloc, classes, SegmentLength::longest())?;
    Node::open(alloc, &openings, family, 0, NodeCount::one())
}

// The node when it has nothing left to do, after steps up to that many. `None` if it has something left after them.
fn finish(mut node: Node, classes: &Classes, limit: u64) -> Result<Option<Node>, Fault>
    requires family { classes.now.family ≡ node.family }
    requires begun { HasMade 0 node }
    requires going { node.failed ≡ None }
    ensures too_deep { result ≡ Err Fault.TooDeep → IsTooDeepWithin node.family limit }
    ensures fits { (class : ℕ) → ¬ (result ≡ Err (Fault.Contradiction class)) }
    ensures family { IfOk result (λ given. IfSome given (λ ended. ended.family ≡ node.family)) }
    ensures done { IfOk result (λ given. IfSome given (λ ended. (steps : ℕ) × (steps ≤ limit) × HasMade steps ended × IsDone ended)) }
    ensures left { result ≡ Ok None → IsUnderWay node.family limit }
{
    match make_steps(&mut node, classes, limit) {
        Ok(()) => {}
        Err(why) => return Err(fault_of(why)),
    }
    if !node.is_idle() {
        return Ok(None);
    }
    Ok(Some(node))
}

// The table of the values that the node has come to.
fn table_of(alloc: Global, node: Node, classes: Classes) -> Result<Table, Memory>
    requires family { classes.family ≡ node.family }
    requires made { (steps : ℕ) × HasMade steps node }
    requires done { IsDone node }
    ensures family { IfOk result (λ table. table.family ≡ node.family) }
    ensures table { IfOk result (λ table. IsValueTable node.family table.values) }
{
    let value_at = |class: u64| -> Value
        requires { IsOwn node.share class }
        ensures { HasValueNow node.share class result }
    { node.value(class) };
    Table::from_fn(alloc, classes, value_at)
}

// Why there is no table where the node has stopped.
fn fault_of(why: Cause) -> Fault
    requires { (family : Set) × (limit : ℕ) × HasStoppedAlone family limit why }
    ensures { IsFaultOf why result }
{
    match why {
        Cause::TooDeep => Fault::TooDeep,
        Cause::Contradiction(class) => Fault::Contradiction(class),
        Cause::Memory => Fault::Memory,
        Cause::Held | Cause::Counts => unreachable!(),
    }
}

// One step of the node: the first own item, or if there is none the next expansion. False if it is idle.
fn step(node: &mut Node, classes: &Classes) -> Result<bool, Cause>
    requires family { classes.now.family ≡ node.old.family }
    requires sound { IsSound node.old }
    requires going { node.old.failed ≡ None }
    ensures family { OnOk result (node.new.family ≡ node.old.family) }
    ensures stopped { IfErr result (λ why. (steps limit : ℕ) → HasMade steps node.old → steps < limit → HasStoppedAlone node.old.family limit why) }
    ensures idle { result ≡ Ok false → IsDone node.new × (node.new ≡ node.old) }
    ensures going { OnOk result (node.new.failed ≡ None) }
    ensures made { result ≡ Ok true → (steps : ℕ) → HasMade steps node.old → HasMade (steps + 1) node.new }
{
    if node.apply_own()? {
        return Ok(true);
    }
    node.expand(classes)
}

// Steps of the node, up to that many.
fn make_steps(node: &mut Node, classes: &Classes, limit: u64) -> Result<(), Cause>
    requires family { classes.now.family ≡ node.old.family }
    requires opened { HasMade 0 node.old }
    requires going { node.old.failed ≡ None }
    ensures family { OnOk result (node.new.family ≡ node.old.family) }
    ensures stopped { IfErr result (λ why. HasStoppedAlone node.old.family limit why) }
    ensures made { OnOk result ((steps : ℕ) × (steps ≤ limit) × HasMade steps node.new × ((steps ≡ limit) ⊎ IsDone node.new)) }
{
    for _step in 0..limit {
        if !step(node, classes)? {
            return Ok(());
        }
    }
    Ok(())
}
