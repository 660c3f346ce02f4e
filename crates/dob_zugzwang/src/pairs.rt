// The pairs of classes in which whoever has to move would rather not, found by as many threads as there are processors.
ghost use Rattle.std.specs.Prelude.{◌≡◌, ◌<◌, ◌↔◌, ℕ, IfOk, MatchOption, Some, length, slice_get, true};
ghost use Rattle.dob_pieces.specs.Setups.{turned};
ghost use Rattle.dob_moves.specs.declared.position_status.Status.{Status};
ghost use Rattle.dob_moves.specs.Shown.{setup_on};
ghost use Rattle.dob_moves.specs.Statuses.{HasStatus};
ghost use Rattle.dob_zugzwang.specs.Zugzwangs.{AreBothOpen, IsWorse};
ghost use Rattle.dob_zugzwang.specs.Pairs.{ArePairs, IsOpenTurn, IsPairAt};

use dob_moves::PositionBoard;
use dob_pieces::{Memory, Profile};
use dob_value::{Table, Value, class_of, representative_of};
use rayon::prelude::*;
use std::alloc::Global;
use std::thread::Threads;

/// A pair of classes, of a position and of its turn: whoever has to move would rather not. The lower number comes first; both are one
/// where a class is its own turn.
#[derive(Clone, Copy)]
pub struct Zugzwang {
    pub class: u64,
    /// Its value for the side to move, at most a draw.
    pub value: Value,
    pub turn_class: u64,
    /// The value of the turn for the other side, which moves there.
    pub turn_value: Value,
}

/// All such pairs by the table, each once, by ascending class number. The classes are looked at by themselves, in as many threads as
/// there are processors.
pub fn zugzwangs(
    rt: &(impl Threads + Sync),
    alloc: Global,
    table: &Table,
) -> Result<Vec<Zugzwang>, Memory>
    ensures { IfOk result (λ pairs. ArePairs table.now pairs.items) }
{
    let pairs = (0..table.classes().class_count())
        .into_par_iter()
        .filter_map(
            |class: u64| -> Option<Zugzwang>
                requires { class < length table.now.values }
                ensures { IsPairAt table.entry.now class result }
            { pair_at(table, class) },
        )
        .collect::<Vec<Zugzwang>>(rt, alloc)?;
    Ok(pairs)
}

// The pair whose lower number is that of the class, if there is one: of its representative with its turn.
fn pair_at(table: &Table, class: u64) -> Option<Zugzwang>
    requires { class < length table.now.values }
    ensures { IsPairAt table.now class result }
{
    let value = table.value(class);
    if is_win(value) {
        return None;
    }
    let position = representative_of(table.classes(), class);
    match open_turn(table.family().profile, &position) {
        None => None,
        Some(turn) => pair_with(table, class, value, &turn),
    }
}

// The same of a class with that value, whose representative has that turn, where both are open.
fn pair_with(table: &Table, class: u64, value: Value, turn: &PositionBoard) -> Option<Zugzwang>
    requires value { slice_get table.now.values class ≡ Some value }
    requires turn { IsOpenTurn table.now class (setup_on turn.now.board) }
    ensures { IsPairAt table.now class result }
{
    let turn_class = class_of(table.classes(), turn);
    let turn_value = table.value(turn_class);
    if turn_class < class {
        return None;
    }
    if !is_worse(value, turn_value) {
        return None;
    }
    Some(Zugzwang {
        class,
        value,
        turn_class,
        turn_value,
    })
}

// The position's turn, where both are open.
fn open_turn(profile: Profile, position: &PositionBoard) -> Option<PositionBoard>
    ensures { MatchOption result (¬ AreBothOpen profile (setup_on position.now.board))
        (λ turn. (setup_on turn.board ≡ turned (setup_on position.now.board)) × AreBothOpen profile (setup_on position.now.board)) }
{
    if !position.status(profile).is_open() {
        return None;
    }
    let turn = turn_of_open(profile, position);
    if turn.status(profile).is_open() {
        Some(turn)
    } else {
        None
    }
}

fn turn_of_open(profile: Profile, position: &PositionBoard) -> PositionBoard
    requires { HasStatus profile (setup_on position.now.board) Status.Open }
    ensures { setup_on result.board ≡ turned (setup_on position.now.board) }
{
    // By each profile the same positions are open, so only the contract names this one.
    let _ = profile;
    PositionBoard::new(position.board.turned())
}

fn is_win(value: Value) -> bool
    ensures { (result ≡ true) ↔ ((plies : ℕ) × (value ≡ Value.Win plies)) }
{
    match value {
        Value::Win(_) => true,
        Value::Loss(_) | Value::Draw => false,
    }
}

// Whether a position with the one value, whose turn has the other, is worth less than nothing together with it.
fn is_worse(value: Value, turn_value: Value) -> bool
    ensures { (result ≡ true) ↔ IsWorse value turn_value }
{
    match value {
        Value::Win(_) => false,
        Value::Loss(_) => !is_win(turn_value),
        Value::Draw => is_loss(turn_value),
    }
}

fn is_loss(value: Value) -> bool
    ensures { (result ≡ true) ↔ ((plies : ℕ) × (value ≡ Value.Loss plies)) }
{
    match value {
        Value::Loss(_) => true,
        Value::Win(_) | Value::Draw => false,
    }
}
