// The moves of a position with their values, best first, by a table and by whatever says values.
ghost use Rattle.std.specs.Prelude.{◌≡◌, ◌⊎◌, [], ◌∷◌, ◌↔◌, ◌<◌, ◌≤◌, ◌||◌, ℕ, length, get_or, Contains, AllPairs, IsTrue, IfOk, IfErr, OnOk, Err};
ghost use Rattle.dob_pieces.specs.Profiles.{IsAllowed};
ghost use Rattle.dob_moves.specs.Moves.{place};
ghost use Rattle.dob_moves.specs.MoveWalks.{IsWalk};
ghost use Rattle.dob_moves.specs.Statuses.{CanCatch};
ghost use Rattle.dob_rank.specs.Families.{IsPositionOf};
ghost use Rattle.dob_rank.specs.Order.{IsPositionOfSet};
ghost use Rattle.dob_distance.specs.declared.value.Value.TheVariants.{Win};
ghost use Rattle.dob_distance.specs.Values.{HasValue};
ghost use Rattle.dob_distance.specs.Codes.{IsEntry};
ghost use Rattle.dob_value.specs.Follows.{IsConsistent, IsTable};
ghost use Rattle.dob_probe.specs.ValuedMoves.{AreSaidMoves, AreValuedMoves, ComesBefore, IsBetter, seen_from_before};
ghost use Rattle.dob_probe.specs.Faults.{IsFaultOfMoves};
ghost use Rattle.dob_probe.specs.Lines.{GivenBy};
ghost use Rattle.dob_probe.specs.Said.{IsGapOfMoves, fails, is_failing};

use crate::fault::Fault;
use crate::gap::LookupFault;
use crate::members::check_member;
use crate::values::ValueSource;
use dob_moves::{Move, Outcome, PositionBoard, Walk, first_catch};
use dob_pieces::{Family, Memory, Position};
use dob_value::{Table, Value, outcome_at};
use std::alloc::Global;

/// A move with the value that the side that makes it then has.
#[derive(Clone, Copy)]
pub struct ValuedMove {
    pub played: Move,
    pub value: Value,
}

/// The moves of the position, each with its value for the side that makes it: a win in one ply more than what it leads to is
/// lost in, a loss in one ply more than what it leads to is won in, or a draw. Best first: wins by the least distance, draws,
/// losses by the greatest; equal ones in the move order. Where the lion can be caught there is its first catch alone, a win in
/// 1 ply, and none if the mover has lost already. Since a table's distances are at most 65,534, one ply more fits.
///
/// # Errors
///
/// `FarChick` exactly if the table's profile doesn't allow the position; `OtherSet` exactly if it does, and the position
/// isn't of the table's set; `Memory`.
pub fn valued_moves(
    alloc: Global,
    table: &Table,
    position: &Position,
) -> Result<Vec<ValuedMove>, Fault>
    ensures moves { IfOk result (λ list. AreValuedMoves table.now.family.profile (GivenBy table.now) position.now.setup list.items) }
    ensures fault { IfErr result (IsFaultOfMoves table.now position.now.setup) }
    ensures member { OnOk result (IsPositionOf table.now.family position.now.setup) }
    ensures far { (IsAllowed table.now.family.profile position.now.setup → ⊥) → result ≡ Err Fault.FarChick }
    ensures other { IsAllowed table.now.family.profile position.now.setup → (IsPositionOfSet table.now.family.set position.now.setup → ⊥)
        → result ≡ Err Fault.OtherSet }
    ensures right { IsConsistent table.now.family table.now.values →
        IfOk result (λ list. AreValuedMoves table.now.family.profile (HasValue table.now.family.profile) position.now.setup list.items) }
{
    check_member(table.family(), position)?;
    Ok(moves_of_set(alloc, table, position)?)
}

// The moves with their values of a position of the table's set.
//
// Error: `Memory`.
fn moves_of_set(
    alloc: Global,
    table: &Table,
    position: &Position,
) -> Result<Vec<ValuedMove>, Memory>
    requires whole { IsTable table.now.family table.now.values }
    requires member { IsPositionOf table.now.family position.now.setup }
    ensures { IfOk result (λ list. AreValuedMoves table.now.family.profile (GivenBy table.now) position.now.setup list.items) }
{
    let mut nothing = ();
    match moves_by(alloc, table, &mut nothing, table.family(), position) {
        Ok(list) => Ok(list),
        // A table has a value for each.
        Err(_gap) => Err(Memory),
    }
}

/// The moves of a position of the family, as `valued_moves` lists them by a table, where the positions that they lead to have the values that are said. None
/// is asked for if the lion can be caught.
///
/// # Errors
///
/// `NoValue` if one of them has none; `Memory`.
pub fn moves_by<S, V: ValueSource<S>>(
    alloc: Global,
    by: &V,
    source: &mut S,
    family: Family,
    position: &Position,
) -> Result<Vec<ValuedMove>, LookupFault<V::Fault>>
    requires stands { V.stands by.now }
    requires family { V.family_of by.now ≡ family }
    requires member { IsPositionOf family position.now.setup }
    ensures moves { (held : V.Held) → V.holds source.old held
        → IfOk result (λ list. AreSaidMoves family.profile (V.says by.now held) position.now.setup list.items) }
    ensures fault { (held : V.Held) → V.holds source.old held
        → IfErr result (IsGapOfMoves family.profile (V.lacks by.now held) position.now.setup) }
    ensures held { (held : V.Held) → V.holds source.old held → V.holds source.new held }
    ensures failed { V.has_failed source.new ≡ (V.has_failed source.old || fails (is_failing V.is_failure) result) }
{
    if let Some(played) = first_catch(position) {
        return Ok(one_catch(alloc, played)?);
    }
    let mut walk = Walk::new();
    let _status = walk.start(family.profile, &PositionBoard::of(position));
    moves_in_order(alloc, by, source, family, position, &walk)
}

// The catch of the lion alone, which wins in 1 ply.
//
// Error: `Memory`.
fn one_catch(alloc: Global, played: Move) -> Result<Vec<ValuedMove>, Memory>
    ensures { IfOk result (λ list. list.items ≡ record { played = played; value = Win 1 } ∷ []) }
{
    let mut list = Vec::new(alloc);
    let value = Value::Win(1);
    list.push(ValuedMove { played, value })?;
    Ok(list)
}

// Those moves of the position with their values, best first.
//
// Errors: those of `moves_by`.
fn moves_in_order<S, V: ValueSource<S>>(
    alloc: Global,
    by: &V,
    source: &mut S,
    family: Family,
    position: &Position,
    walk: &Walk,
) -> Result<Vec<ValuedMove>, LookupFault<V::Fault>>
    requires stands { V.stands by.now }
    requires family { V.family_of by.now ≡ family }
    requires member { IsPositionOf family position.now.setup }
    requires walk { IsWalk family.profile position.now.setup walk.now }
    requires free { ¬ CanCatch position.now.setup }
    ensures moves { (held : V.Held) → V.holds source.old held
        → IfOk result (λ list. AreSaidMoves family.profile (V.says by.now held) position.now.setup list.items) }
    ensures fault { (held : V.Held) → V.holds source.old held
        → IfErr result (IsGapOfMoves family.profile (V.lacks by.now held) position.now.setup) }
    ensures held { (held : V.Held) → V.holds source.old held → V.holds source.new held }
    ensures failed { V.has_failed source.new ≡ (V.has_failed source.old || fails (is_failing V.is_failure) result) }
{
    let mut list = Vec::new(alloc);
    for place in 0..walk.len() {
        let Outcome { played, position } = outcome_at(family, walk, place);
        let value = match by.value_at(source, &position) {
            Ok(value) => value,
            Err(fault) => return Err(LookupFault::NoValue(fault)),
        };
        let valued = ValuedMove {
            played,
            value: value_seen(value),
        };
        insert_by_value(&mut list, valued)?;
    }
    Ok(list)
}

/// The value that the side that made a move has, where the position after it has that value for the other side.
pub fn value_seen(value: Value) -> Value
    requires { IsEntry value }
    ensures { result ≡ seen_from_before value }
{
    match value {
        Value::Win(plies) => Value::Loss(plies + 1),
        Value::Loss(plies) => Value::Win(plies + 1),
        Value::Draw => Value::Draw,
    }
}

/// Inserts a move that is later in the move order than all that are listed.
///
/// # Errors
///
/// `Memory`.
pub fn insert_by_value(list: &mut Vec<ValuedMove>, more: ValuedMove) -> Result<(), Memory>
    requires later { (other : ValuedMove) → Contains list.old.items other → place other.played < place more.played }
    requires ordered { AllPairs ComesBefore list.old.items }
    ensures ordered { OnOk result (AllPairs ComesBefore list.new.items) }
    ensures items { OnOk result ((other : ValuedMove) → Contains list.new.items other ↔ (Contains list.old.items other ⊎ (other ≡ more))) }
{
    let index = index_for(list, more.value);
    list.insert(index, more)?;
    Ok(())
}

// How many of the list stand before a later move of that value: all before the first that is worse.
fn index_for(list: &[ValuedMove], value: Value) -> usize
    ensures within { result ≤ length list.now }
    ensures before { (k : ℕ) (d : ValuedMove) → k < result → ¬ IsBetter value (get_or list.now k d).value }
    ensures first { (d : ValuedMove) → result < length list.now → IsBetter value (get_or list.now result d).value }
{
    for index in 0..list.len() {
        if is_better(value, list[index].value) {
            return index;
        }
    }
    list.len()
}

// Whether the first value is better.
fn is_better(value: Value, other: Value) -> bool
    ensures { IsTrue result ↔ IsBetter value other }
{
    match (value, other) {
        (Value::Win(plies), Value::Win(others)) => plies < others,
        (Value::Win(_), Value::Draw | Value::Loss(_)) => true,
        (Value::Draw, Value::Loss(_)) => true,
        (Value::Draw, Value::Win(_) | Value::Draw) => false,
        (Value::Loss(plies), Value::Loss(others)) => plies > others,
        (Value::Loss(_), Value::Win(_) | Value::Draw) => false,
    }
}
