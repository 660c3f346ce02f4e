// The line of a position by a table, and by whatever says values.
ghost use Rattle.std.specs.Prelude.{◌≡◌, ◌⊎◌, ◌||◌, ◌++◌, ◌∷◌, [], ℕ, IfOk, IfErr, MatchResult, OnOk, Err};
ghost use Rattle.dob_pieces.specs.Profiles.{IsAllowed};
ghost use Rattle.dob_moves.specs.Shown.{setup_on};
ghost use Rattle.dob_rank.specs.Families.{IsPositionOf};
ghost use Rattle.dob_rank.specs.Order.{IsPositionOfSet};
ghost use Rattle.dob_distance.specs.Values.{HasValue};
ghost use Rattle.dob_distance.specs.Codes.{IsEntry};
ghost use Rattle.dob_value.specs.Follows.{IsConsistent};
ghost use Rattle.dob_probe.specs.Lines.{GivenBy, IsFirstTo, IsLine, BreaksAt, value_wanted};
ghost use Rattle.dob_probe.specs.Faults.{IsFaultOfLine};
ghost use Rattle.dob_probe.specs.Said.{AreSingle, IsGapOfLine, IsGapTo, fails, is_failing};

use crate::fault::Fault;
use crate::gap::{LookupFault, fault_of};
use crate::probes::probe;
use crate::values::ValueSource;
use dob_classes::Classes;
use dob_moves::{Move, Outcome, PositionBoard, Walk};
use dob_pieces::{Memory, Position};
use dob_value::{Table, Value, class_of, outcome_at};
use std::alloc::Global;

/// The line of the position: where the lion can be caught, its first catch; else from a win the first move to a loss
/// of the other side in one ply less, and from a loss the first to a win in one ply less, and so on. It is empty at a
/// draw, and where the mover has lost already. By a table that `check` passes it is the best line.
///
/// # Errors
///
/// `FarChick` exactly if the table's profile doesn't allow the position; `OtherSet` exactly if it does, and the position
/// isn't of the table's set; `Inconsistent` with the class at which the line goes on by the table, but no move leads to the
/// value that it needs; `Memory`.
pub fn line(alloc: Global, table: &Table, position: &Position) -> Result<Vec<Move>, Fault>
    ensures line { IfOk result (λ moves. IsLine table.now.family.profile (GivenBy table.now) position.now.setup moves.items) }
    ensures fault { IfErr result (IsFaultOfLine table.now position.now.setup) }
    ensures far { (IsAllowed table.now.family.profile position.now.setup → ⊥) → result ≡ Err Fault.FarChick }
    ensures other { IsAllowed table.now.family.profile position.now.setup → (IsPositionOfSet table.now.family.set position.now.setup → ⊥)
        → result ≡ Err Fault.OtherSet }
    ensures broken { (class : ℕ) → IsPositionOf table.now.family position.now.setup → BreaksAt table.now position.now.setup class
        → (result ≡ Err (Fault.Inconsistent class)) ⊎ (result ≡ Err Fault.Memory) }
    ensures right { IsConsistent table.now.family table.now.values → IsPositionOf table.now.family position.now.setup
        → MatchResult result (λ moves. IsLine table.now.family.profile (HasValue table.now.family.profile) position.now.setup moves.items) (λ fault. fault ≡ Fault.Memory) }
{
    let value = probe(table, position)?;
    line_from(alloc, table, *position, value)
}

// The line of the position, whose class has that value in the table.
//
// Errors: `Inconsistent` and `Memory`, as of `line`.
fn line_from(
    alloc: Global,
    table: &Table,
    position: Position,
    value: Value,
) -> Result<Vec<Move>, Fault>
    requires member { IsPositionOf table.now.family position.setup }
    requires value { GivenBy table.now position.setup value }
    requires entry { IsEntry value }
    ensures line { IfOk result (λ moves. IsLine table.now.family.profile (GivenBy table.now) position.setup moves.items) }
    ensures fault { IfErr result (IsFaultOfLine table.now position.setup) }
{
    let mut nothing = ();
    match line_by(alloc, table, &mut nothing, table.classes(), position, value) {
        Ok(line) => Ok(line),
        Err(gap) => Err(fault_of(gap)),
    }
}

/// The line of the position, as `line` gives it by a table, where it and those after it have the values that are said, and it has that one. Of each position
/// on it the values of those that its moves lead to are asked for, up to the first one that has the value which the line needs.
///
/// # Errors
///
/// `NoValue` if one of them has none; `Inconsistent` with the class at which the line goes on, but no move leads to the value that it needs; `Memory`.
pub fn line_by<S, V: ValueSource<S>>(
    alloc: Global,
    by: &V,
    source: &mut S,
    classes: &Classes,
    position: Position,
    mut value: Value,
) -> Result<Vec<Move>, LookupFault<V::Fault>>
    requires stands { V.stands by.now }
    requires single { (held : V.Held) → AreSingle classes.now.family (V.says by.now held) }
    requires family { V.family_of by.now ≡ classes.now.family }
    requires member { IsPositionOf classes.now.family position.setup }
    requires entry { IsEntry value }
    ensures line { (held : V.Held) → V.holds source.old held → V.says by.now held position.setup value
        → IfOk result (λ moves. IsLine classes.now.family.profile (V.says by.now held) position.setup moves.items) }
    ensures fault { (held : V.Held) → V.holds source.old held → V.says by.now held position.setup value
        → IfErr result (IsGapOfLine classes.now.family (V.says by.now held) (V.lacks by.now held) position.setup) }
    ensures held { (held : V.Held) → V.holds source.old held → V.holds source.new held }
    ensures failed { V.has_failed source.new ≡ (V.has_failed source.old || fails (is_failing V.is_failure) result) }
{
    let mut line = Vec::new(alloc);
    let mut here = PositionBoard::of(&position);
    loop {
        if let Some(catch) = here.first_catch() {
            push_move(&mut line, catch)?;
            return Ok(line);
        }
        let Some(wanted) = value_wanted(value) else {
            return Ok(line);
        };
        let next = first_to(by, source, classes, &here, wanted)?;
        push_move(&mut line, next.played)?;
        here = next.position;
        value = wanted;
    }
}

// Writes the move behind the others.
fn push_move(line: &mut Vec<Move>, played: Move) -> Result<(), Memory>
    ensures { OnOk result (line.new.items ≡ line.old.items ++ played ∷ []) }
{
    Ok(line.push(played)?)
}

// The value to which the line's next move leads from a position with that value, if there is such a move.
fn value_wanted(value: Value) -> Option<Value>
    requires { IsEntry value }
    ensures { result ≡ value_wanted value }
{
    match value {
        Value::Win(plies) => Some(Value::Loss(plies - 1)),
        Value::Loss(0) | Value::Draw => None,
        Value::Loss(plies) => Some(Value::Win(plies - 1)),
    }
}

// The first move to a position with that value, and that position.
//
// Errors: `NoValue` if a position to which a move leads has no value; `Inconsistent` with the position's class where none leads to that value.
fn first_to<S, V: ValueSource<S>>(
    by: &V,
    source: &mut S,
    classes: &Classes,
    position: &PositionBoard,
    wanted: Value,
) -> Result<Outcome, LookupFault<V::Fault>>
    requires stands { V.stands by.now }
    requires single { (held : V.Held) → AreSingle classes.now.family (V.says by.now held) }
    requires family { V.family_of by.now ≡ classes.now.family }
    requires member { IsPositionOf classes.now.family (setup_on position.now.board) }
    ensures found { (held : V.Held) → V.holds source.old held → IfOk result (λ found.
        IsFirstTo classes.now.family.profile (V.says by.now held) (setup_on position.now.board) wanted found.played (setup_on found.position.board)) }
    ensures member { IfOk result (λ found. IsPositionOf classes.now.family (setup_on found.position.board)) }
    ensures entry { OnOk result (IsEntry wanted) }
    ensures missing { (held : V.Held) → V.holds source.old held
        → IfErr result (IsGapTo classes.now.family (V.says by.now held) (V.lacks by.now held) (setup_on position.now.board) wanted) }
    ensures held { (held : V.Held) → V.holds source.old held → V.holds source.new held }
    ensures failed { V.has_failed source.new ≡ (V.has_failed source.old || fails (is_failing V.is_failure) result) }
{
    let mut walk = Walk::new();
    let _status = walk.start(classes.family.profile, position);
    for place in 0..walk.len() {
        let outcome = outcome_at(classes.family, &walk, place);
        let value = match by.value_at(source, &outcome.position) {
            Ok(value) => value,
            Err(fault) => return Err(LookupFault::NoValue(fault)),
        };
        if value == wanted {
            return Ok(outcome);
        }
    }
    Err(LookupFault::Inconsistent(class_of(classes, position)))
}
