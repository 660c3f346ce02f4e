// Puzzles of a table: classes with exactly one fastest winning move.
ghost use Rattle.std.specs.Prelude.{◌≡◌, ◌<◌, ◌&&◌, length, IfOk, OnOk};
ghost use Rattle.std.specs.List.{list_any};
ghost use Rattle.dob_moves.specs.declared.game_move.Move.{Move as Moved};
ghost use Rattle.dob_probe.specs.Outlines.{AreOutlines, IsOutlineOf, same_outline};
ghost use Rattle.dob_rank.specs.Families.{class_setup};
ghost use Rattle.dob_distance.specs.declared.value.Value.TheVariants.{Loss};
ghost use Rattle.dob_probe.specs.Lines.{GivenBy};
ghost use Rattle.dob_probe.specs.Puzzles.{ArePuzzles, IsListedNext, puzzle_of};
ghost use Rattle.dob_probe.specs.SingleMoves.{IsPuzzleOf, IsSingleMove};

use crate::outlines::{Outline, has_outline, outline_of};
use crate::walks::{ClassOrder, begin_at, class_on, order_of, places_in};
use dob_moves::{Move, Outcome, Walk};
use dob_pieces::Memory;
use dob_value::{Table, Value, outcome_at, representative_of};
use std::alloc::Global;

/// A class that is won by one move alone: its number, and that move of its representative.
#[derive(Clone, Copy)]
pub struct Puzzle {
    pub class: u64,
    pub played: Move,
}

// The puzzles that are listed so far, and the outline of the representative of each; whether no two are to have the same one.
#[derive(Drop)]
struct PuzzleSearch {
    is_spread: bool,
    list: Vec<Puzzle>,
    outlines: Vec<Outline>,
}

/// The first classes of the walk, at most `count`, that the table says are won in `plies` plies and of whose representative just one
/// move leads to a position lost in one ply less, each with that move, in the walk's order. If a seed makes the order, no two of them are of
/// one block with the lions on the same squares: the first of such classes is listed. The classes are looked at up to the last one listed, and
/// all of the walk if there are fewer.
pub fn first_puzzles(
    alloc: Global,
    table: &Table,
    walk: ClassOrder,
    plies: u64,
    count: u64,
) -> Result<Vec<Puzzle>, Memory>
    requires { 0 < plies }
    ensures { IfOk result (λ list. ArePuzzles table.now walk plies count list.items) }
{
    let classes = table.class_count();
    let order = order_of(walk.seed, classes);
    // That a table has no longer distance bounds the plies.
    let _family = table.family();
    if plies > u16::MAX as u64 {
        return Ok(Vec::new(alloc));
    }
    let begin = begin_at(walk.after, &order, classes);
    let end = places_in(&order, classes);
    let mut search = PuzzleSearch {
        is_spread: walk.seed.is_some(),
        list: Vec::new(alloc),
        outlines: Vec::new(alloc),
    };
    for place in begin..end {
        if search.list.len() as u64 >= count {
            return Ok(search.list);
        }
        if let Some(puzzle) = puzzle_of(table, plies as u16, class_on(&order, classes, place)) {
            let Puzzle { class, played } = puzzle;
            list_puzzle(table, &mut search, class, played)?;
        }
    }
    Ok(search.list)
}

// Lists the puzzle of that class and that move, and the outline of its class's representative, but passes it where it is to be unlike those that are listed, and isn't.
//
// Error: `Memory`.
fn list_puzzle(
    table: &Table,
    search: &mut PuzzleSearch,
    class: u64,
    played: Move,
) -> Result<(), Memory>
    requires within { class < length table.now.values }
    requires outlines { AreOutlines table.now search.old.list.items search.old.outlines.items }
    ensures outlines { OnOk result (AreOutlines table.now search.new.list.items search.new.outlines.items) }
    ensures listed { OnOk result (IsListedNext table.now search.old.is_spread (puzzle_of class played) search.old.list.items search.new.list.items) }
    ensures spread { search.new.is_spread ≡ search.old.is_spread }
{
    let outline = outline_at(table, class);
    if is_passed(&search.outlines, search.is_spread, outline) {
        return Ok(());
    }
    search.list.push(Puzzle { class, played })?;
    search.outlines.push(outline)?;
    Ok(())
}

// The outline of the class's representative.
fn outline_at(table: &Table, class: u64) -> Outline
    requires { class < length table.now.values }
    ensures { (played : Moved) → IsOutlineOf table.now (puzzle_of class played) result }
{
    outline_of(&table.classes().class_at(class))
}

// Whether a puzzle with that outline is passed.
fn is_passed(outlines: &[Outline], is_spread: bool, outline: Outline) -> bool
    ensures { result ≡ (is_spread && list_any (same_outline outline) outlines.now) }
{
    if is_spread {
        has_outline(outlines, outline)
    } else {
        false
    }
}

// The class as a puzzle, if the table has it and it is one.
fn puzzle_of(table: &Table, plies: u16, class: u64) -> Option<Puzzle>
    requires { 0 < plies }
    ensures { IsPuzzleOf table.now plies class result }
{
    if class >= table.class_count() {
        return None;
    }
    if table.value(class) != Value::Win(plies) {
        return None;
    }
    match single_move(table, class, Value::Loss(plies - 1)) {
        Some(played) => Some(Puzzle { class, played }),
        None => None,
    }
}

// The only one of the moves of the class's representative that leads to a position of that value; `None` if there is no such move or
// more than one.
fn single_move(table: &Table, class: u64, wanted: Value) -> Option<Move>
    requires { class < length table.now.values }
    ensures { IsSingleMove table.now.family.profile (GivenBy table.now) (class_setup table.now.family class) wanted result }
{
    let family = table.family();
    let position = representative_of(table.classes(), class);
    let mut walk = Walk::new();
    let _status = walk.start(family.profile, &position);
    let mut single = None;
    for place in 0..walk.len() {
        let Outcome { played, position } = outcome_at(family, &walk, place);
        if table.value_on(&position) == wanted {
            if single.is_some() {
                return None;
            }
            single = Some(played);
        }
    }
    single
}
