// What classes lead to: one by one, and in parts by as many threads as there are processors.
ghost use Rattle.std.specs.Prelude.{◌≡◌, ◌<◌, ◌≤◌, ◌-◌, ◌+◌, ◌++◌, ◌∷◌, ℕ, List, [], IfOk, OnOk};
ghost use Rattle.std.specs.List.{AllZip, range_with_len};
ghost use Rattle.dob_rank.specs.Families.{classes_of};
ghost use Rattle.dob_reach.specs.Fronts.{AreClasses, AreExpanded, IsExpanded, IsPartAt, IsPlace, IsSifted, part_count};
ghost use Rattle.dob_reach.specs.Marks.{HasBits};

use crate::marks::Marks;
use dob_classes::Classes;
use dob_moves::Walk;
use dob_pieces::Memory;
use dob_value::{class_after, representative_of};
use rayon::prelude::*;
use std::alloc::Global;
use std::thread::Threads;

// How many classes a thread expands at a time.
const PART: usize = 4096;

/// What is found of a part of the classes.
#[derive(Drop)]
pub(crate) struct FrontierPart {
    /// The classes to which they lead, but those that were marked: one stands there more than once where several lead to it.
    pub(crate) outcomes: Vec<u32>,
    /// How many of them are open.
    pub(crate) opens: u64,
}

/// How many parts some classes have: whole ones, and what is left behind them, which may be none.
pub(crate) fn part_count(front: &[u32]) -> usize
    ensures { result ≡ part_count front.now }
{
    front.len() / PART + 1
}

/// What is found of the parts from the first place on, before the end, in their order. They are looked at by as many threads as
/// there are processors.
pub(crate) fn parts_between(
    rt: &(impl Threads + Sync),
    alloc: Global,
    classes: &Classes,
    marks: &Marks,
    front: &[u32],
    first: usize,
    end: usize,
) -> Result<Vec<FrontierPart>, Memory>
    requires members { AreClasses classes.now.family front.now }
    requires bits { HasBits marks.now.words.items (classes_of classes.now.family) }
    requires order { first ≤ end }
    requires within { end ≤ part_count front.now }
    ensures { IfOk result (λ parts. AllZip (IsPartAt classes.now.family marks.now.words.items front.now) (range_with_len first (end - first)) parts.items) }
{
    (first as u64..end as u64)
        .into_par_iter()
        .map(
            |place: u64| -> Result<FrontierPart, Memory>
                requires { IsPlace classes.now.family marks.now.words.items front.now place }
                ensures { IfOk result (IsPartAt classes.entry.now.family marks.entry.now.words.items front.entry.now place) }
            { part_at(alloc, classes, marks, front, place as usize) },
        )
        .collect::<Result<Vec<FrontierPart>, Memory>>(rt, alloc)?
}

// What is found of the part of that place.
//
// Error: `Memory`.
fn part_at(
    alloc: Global,
    classes: &Classes,
    marks: &Marks,
    front: &[u32],
    place: usize,
) -> Result<FrontierPart, Memory>
    requires { IsPlace classes.now.family marks.now.words.items front.now place }
    ensures { IfOk result (IsPartAt classes.now.family marks.now.words.items front.now place) }
{
    let from = place * PART;
    let to = from + PART.min(front.len() - from);
    part_of(alloc, classes, marks, &front[from..to])
}

// What is found of the classes.
//
// Error: `Memory`.
fn part_of(
    alloc: Global,
    classes: &Classes,
    marks: &Marks,
    part: &[u32],
) -> Result<FrontierPart, Memory>
    requires members { AreClasses classes.now.family part.now }
    requires bits { HasBits marks.now.words.items (classes_of classes.now.family) }
    ensures { IfOk result (λ found. AreExpanded classes.now.family marks.now.words.items part.now found.outcomes.items found.opens) }
{
    let mut walk = Walk::new();
    let mut outcomes = Vec::new(alloc);
    let mut opens = 0;
    for class in part {
        let is_open = push_outcomes(classes, marks, *class, &mut walk, &mut outcomes)?;
        opens += u64::from(is_open);
    }
    Ok(FrontierPart { outcomes, opens })
}

// Appends the classes to which the class's moves lead, but those that are marked, and says whether it is open. The walk is
// room for its moves.
//
// Error: `Memory`.
fn push_outcomes(
    classes: &Classes,
    marks: &Marks,
    class: u32,
    walk: &mut Walk,
    outcomes: &mut Vec<u32>,
) -> Result<bool, Memory>
    requires class { class < classes_of classes.now.family }
    requires bits { HasBits marks.now.words.items (classes_of classes.now.family) }
    ensures { IfOk result (λ is_open. (more : List ℕ) × (outcomes.new.items ≡ outcomes.old.items ++ more)
        × IsExpanded classes.now.family marks.now.words.items class more is_open) }
{
    let _few = classes.class_count();
    let position = representative_of(classes, class as u64);
    let status = walk.start(classes.family.profile, &position);
    for place in 0..walk.len() {
        let outcome = class_after(classes, walk, place);
        push_unmarked(marks, outcomes, outcome as u32)?;
    }
    Ok(status.is_open())
}

// Appends the number if it isn't marked.
//
// Error: `Memory`.
fn push_unmarked(marks: &Marks, numbers: &mut Vec<u32>, number: u32) -> Result<(), Memory>
    requires { HasBits marks.now.words.items (number + 1) }
    ensures { OnOk result ((more : List ℕ) × (numbers.new.items ≡ numbers.old.items ++ more) × IsSifted marks.now.words.items (number ∷ []) more) }
{
    if !marks.has(number) {
        numbers.push(number)?;
    }
    Ok(())
}
