// One item at one cell: whether it fits, and what it makes of the slot and of the counts. What a move is known to lead to
// changes a cell's value only if the win comes nearer or the last move becomes known, so most items look no value up; and
// only wins of the enemy are counted, so that other items leave the pool alone.
ghost use Rattle.std.specs.Prelude.{◌≡◌, ◌≢◌, ℕ, ◌+◌, ◌<◌, ◌≤◌, List, length, Some, MatchOption};
ghost use Rattle.dob_distance.specs.declared.value.Value.TheVariants.{Win, Loss, Draw};
ghost use Rattle.dob_distance.specs.Distances.{lesser_of};
ghost use Rattle.dob_share.specs.Cells.{CellValue};
ghost use Rattle.dob_share.specs.Slots.{slot_at, start_at, cell_by, ArePooled, IsShortCell, least_of};
ghost use Rattle.dob_share.specs.Steps.{IsApplied};

use crate::cells::{CellHead, count_better, count_win, counted_place, greatest_win, later};
use crate::fault::Fault;
use crate::share::Seen;
use dob_distance::{MAX_DISTANCE, Value};
use dob_lists::Segments;

pub(crate) fn value_in(pool: &Segments<u16>, slot: CellHead) -> Value
    requires within { slot.start + slot.used ≤ length pool.now }
    requires short { IsShortCell (cell_by slot pool.now) }
    ensures { CellValue (cell_by slot pool.now) result }
{
    if slot.win > 0 {
        return Value::Win(slot.win);
    }
    if slot.left > 0 {
        return Value::Draw;
    }
    match greatest_win(pool, slot) {
        Some(greatest) => Value::Loss(greatest + 1),
        None => Value::Draw,
    }
}

/// Applies an item to the class `to`, whose cell is at that place; it answers the cell's value before and after, where
/// they differ.
///
/// # Errors
///
/// Which leave the cells as they were: `Contradiction` if the change doesn't fit the cell, else `TooDeep`
/// where the cell's value would have a distance above `MAX_DISTANCE`.
pub(crate) fn apply_at(
    slots: &mut Segments<CellHead>,
    pool: &mut Segments<u16>,
    seen: Seen,
    to: u64,
    was: Value,
    now: Value,
) -> Result<Option<(Value, Value)>, Fault>
    requires pooled { ArePooled slots.old pool.old }
    requires place { seen.place < length slots.old }
    requires start { seen.start ≡ start_at slots.old (length pool.old) seen.place }
    ensures { IsApplied to was now seen.place slots.old pool.old slots.new pool.new result }
{
    let place = seen.place;
    match was {
        Value::Draw => match now {
            Value::Win(plies) => apply_win(slots, pool, seen, to, plies),
            Value::Loss(plies) => apply_loss(slots, place, to, plies),
            Value::Draw => Err(Fault::Contradiction(to)),
        },
        Value::Win(distance) => match now {
            Value::Win(plies) => apply_better_win(slots, pool, place, to, distance, plies),
            Value::Draw | Value::Loss(_) => Err(Fault::Contradiction(to)),
        },
        Value::Loss(distance) => match now {
            Value::Loss(plies) => apply_better_loss(slots, place, to, distance, plies),
            Value::Draw | Value::Win(_) => Err(Fault::Contradiction(to)),
        },
    }
}

// The first news of a move: it leads to a win of the enemy.
fn apply_win(
    slots: &mut Segments<CellHead>,
    pool: &mut Segments<u16>,
    seen: Seen,
    to: u64,
    plies: u16,
) -> Result<Option<(Value, Value)>, Fault>
    requires pooled { ArePooled slots.old pool.old }
    requires place { seen.place < length slots.old }
    requires start { seen.start ≡ start_at slots.old (length pool.old) seen.place }
    ensures { IsApplied to Draw (Win plies) seen.place slots.old pool.old slots.new pool.new result }
{
    let place = seen.place;
    let slot = slots[place];
    if slot.left == 0 {
        return Err(Fault::Contradiction(to));
    }
    if slot.left == 1 && slot.win == 0 {
        return apply_last_win(slots, pool, place, plies);
    }
    // The slot first: after a write to the pool its place would be looked for anew.
    slots[place] = CellHead {
        start: slot.start,
        win: slot.win,
        left: slot.left - 1,
        used: slot.used + 1,
    };
    count_win(pool, seen.start, slot.used, plies);
    Ok(None)
}

// The news of the last move of a cell that knows no loss of the enemy: it leads to a win of the enemy too, as all do.
fn apply_last_win(
    slots: &mut Segments<CellHead>,
    pool: &mut Segments<u16>,
    place: usize,
    plies: u16,
) -> Result<Option<(Value, Value)>, Fault>
    requires pooled { ArePooled slots.old pool.old }
    requires place { place < length slots.old }
    requires last { (slot_at slots.old (length pool.old) place).left ≡ 1 }
    requires no_loss { (slot_at slots.old (length pool.old) place).win ≡ 0 }
    ensures { (to : ℕ) → IsApplied to Draw (Win plies) place slots.old pool.old slots.new pool.new result }
{
    let slot = slots[place];
    let greatest = later(greatest_win(pool, slot), plies);
    if greatest >= MAX_DISTANCE {
        return Err(Fault::TooDeep);
    }
    slots[place] = CellHead {
        start: slot.start,
        win: 0,
        left: 0,
        used: slot.used + 1,
    };
    count_win(pool, slot.start, slot.used, plies);
    Ok(Some((Value::Draw, Value::Loss(greatest + 1))))
}

// The first news of a move: it leads to a loss of the enemy.
fn apply_loss(
    slots: &mut Segments<CellHead>,
    place: usize,
    to: u64,
    plies: u16,
) -> Result<Option<(Value, Value)>, Fault>
    requires pooled { (pool : List ℕ) × ArePooled slots.old pool }
    requires place { place < length slots.old }
    ensures { (pool : List ℕ) → ArePooled slots.old pool → IsApplied to Draw (Loss plies) place slots.old pool slots.new pool result }
{
    let slot = slots[place];
    if slot.left == 0 {
        return Err(Fault::Contradiction(to));
    }
    if slot.win == 0 && plies >= MAX_DISTANCE {
        return Err(Fault::TooDeep);
    }
    let win = win_after(slot.win, plies);
    slots[place] = CellHead {
        start: slot.start,
        win,
        left: slot.left - 1,
        used: slot.used,
    };
    Ok(change(win_value(slot.win), Value::Win(win)))
}

// Better news of a move that leads to a win of the enemy.
#[inline(never)]
fn apply_better_win(
    slots: &Segments<CellHead>,
    pool: &mut Segments<u16>,
    place: usize,
    to: u64,
    was: u16,
    now: u16,
) -> Result<Option<(Value, Value)>, Fault>
    requires pooled { ArePooled slots.now pool.old }
    requires place { place < length slots.now }
    ensures { IsApplied to (Win was) (Win now) place slots.now pool.old slots.now pool.new result }
{
    if now >= was {
        return Err(Fault::Contradiction(to));
    }
    let slot = slots[place];
    let Some(counted) = counted_place(pool, slot, was) else {
        return Err(Fault::Contradiction(to));
    };
    let before = value_in(pool, slot);
    count_better(pool, slot, counted, now);
    let after = value_in(pool, slot);
    Ok(change(before, after))
}

// Better news of a move that leads to a loss of the enemy.
#[inline(never)]
fn apply_better_loss(
    slots: &mut Segments<CellHead>,
    place: usize,
    to: u64,
    was: u16,
    now: u16,
) -> Result<Option<(Value, Value)>, Fault>
    requires pooled { (pool : List ℕ) × ArePooled slots.old pool }
    requires place { place < length slots.old }
    ensures { (pool : List ℕ) → ArePooled slots.old pool → IsApplied to (Loss was) (Loss now) place slots.old pool slots.new pool result }
{
    let slot = slots[place];
    if now >= was {
        return Err(Fault::Contradiction(to));
    }
    if slot.win == 0 || slot.win - 1 > was {
        return Err(Fault::Contradiction(to));
    }
    let win = win_after(slot.win, now);
    slots[place] = CellHead {
        start: slot.start,
        win,
        left: slot.left,
        used: slot.used,
    };
    Ok(change(win_value(slot.win), Value::Win(win)))
}

// The distance of the win that the least known loss gives, after a loss of the enemy in that many plies; 0 stands for
// none.
fn win_after(win: u16, plies: u16) -> u16
    requires win { win ≤ 65534 }
    requires plies { win ≡ 0 → plies < 65534 }
    ensures { least_of result ≡ Some (lesser_of (least_of win) plies) }
{
    if win > 0 && win - 1 <= plies {
        win
    } else {
        plies + 1
    }
}

// The value of a cell with such a win, where 0 stands for none and moves are left.
fn win_value(win: u16) -> Value
    ensures some { 0 < win → result ≡ Win win }
    ensures none { win ≡ 0 → result ≡ Draw }
{
    if win > 0 {
        Value::Win(win)
    } else {
        Value::Draw
    }
}

// The two values, where they differ.
fn change(before: Value, after: Value) -> Option<(Value, Value)>
    ensures { MatchOption result (before ≡ after) (λ values. (values.0 ≡ before) × (values.1 ≡ after) × (before ≢ after)) }
{
    if before == after {
        return None;
    }
    Some((before, after))
}
