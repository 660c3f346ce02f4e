// The search: round by round what the classes of one distance lead to, until they lead to nothing new.
ghost use Rattle.std.specs.Prelude.{◌≡◌, ◌<◌, ◌+◌, ◌^◌, ◌++◌, ◌∷◌, ℕ, List, IfOk, OnOk, [], length, slice_index_or};
ghost use Rattle.dob_rank.specs.Families.{IsPositionOf, class_number, classes_of};
ghost use Rattle.dob_reach.specs.Counts.{Among};
ghost use Rattle.dob_reach.specs.Fronts.{AreClasses, opens_of, outcomes_of};
ghost use Rattle.dob_reach.specs.Leads.{IsOpen, Leads};
ghost use Rattle.dob_reach.specs.Marks.{AreMarked, HasBits, HaveBits, KeepsMarks};
ghost use Rattle.dob_reach.specs.Reached.{AreReachedFrom};
ghost use Rattle.dob_reach.specs.Rounds.{AreMet};
ghost use Rattle.dob_reach.specs.Searches.{IsSearched};

use crate::marks::Marks;
use crate::parts::{FrontierPart, part_count, parts_between};
use dob_classes::Classes;
use dob_pieces::{Memory, Position};
use std::alloc::Global;
use std::thread::Threads;

// How many parts are expanded before what they lead to is marked.
const WINDOW: usize = 64;

/// What can be reached from a class by moves, going on from open classes alone.
#[derive(Drop)]
pub struct Reached {
    /// How many classes are reached, the first one and those that have ended counted.
    pub classes: u64,
    /// How many of them are open.
    pub opens: u64,
    /// How many have which distance from the first, in plies, up to the greatest distance.
    pub levels: Vec<u64>,
    pub(crate) marks: Marks,
}

/// Receives how far a search is.
pub trait Watch {
    ghost use Rattle.std.specs.Prelude.{ℕ};

    // By `told watch distance classes` it may have learned so.
    ghost told: { Self → ℕ → ℕ → Type 0 };

    /// Receives how many classes have that distance.
    fn met(&self, distance: u64, classes: u64)
        ensures { told self.now distance classes };
}

/// Which classes can be reached from that of the position, a class at a time: each class of the family has one bit, and a round goes
/// over the classes of one distance, whose moves as many threads as there are processors look at and one thread marks. It reports
/// to the watch how many classes each distance has.
pub fn reach<R: Threads + Sync, W: Watch>(
    rt: &R,
    alloc: Global,
    classes: &Classes,
    position: &Position,
    watch: &W,
) -> Result<Reached, Memory>
    requires { IsPositionOf classes.now.family position.now.setup }
    ensures reached { IfOk result (AreReachedFrom classes.now.family (class_number classes.now.family position.now.setup)) }
    ensures told { IfOk result (λ reached. (distance : ℕ) → distance < length reached.levels.items
        → W.told watch.now distance (slice_index_or reached.levels.items distance 0)) }
{
    let _few = classes.class_count();
    let start = classes.class_of(position) as u32;
    let (mut reached, mut front) = begin(alloc, classes, start)?;
    'rounds: while !front.is_empty() {
        watch.met(reached.levels.len() as u64, front.len() as u64);
        front = advance(rt, alloc, classes, &mut reached, &front)?;
    }
    Ok(reached)
}

// Before the first round: the first class alone is marked.
fn begin(alloc: Global, classes: &Classes, start: u32) -> Result<(Reached, Vec<u32>), Memory>
    requires { start < classes_of classes.now.family }
    ensures searched { IfOk result (λ begun. IsSearched classes.now.family start begun.0 begun.1.items) }
    ensures level { IfOk result (λ begun. begun.0.levels.items ≡ []) }
{
    let mut marks = Marks::none(alloc, classes.class_count())?;
    marks.add(start);
    let mut front = Vec::new(alloc);
    front.push(start)?;
    let reached = Reached {
        classes: 0,
        opens: 0,
        levels: Vec::new(alloc),
        marks,
    };
    Ok((reached, front))
}

// Counts the classes of one distance, marks what they lead to, and gives those that are marked for it.
fn advance(
    rt: &(impl Threads + Sync),
    alloc: Global,
    classes: &Classes,
    reached: &mut Reached,
    front: &[u32],
) -> Result<Vec<u32>, Memory>
    requires some { 0 < length front.now }
    requires searched { (from : ℕ) × IsSearched classes.now.family from reached.old front.now }
    ensures searched { IfOk result (λ next. (from : ℕ) → IsSearched classes.now.family from reached.old front.now
        → IsSearched classes.now.family from reached.new next.items) }
    ensures level { OnOk result (reached.new.levels.items ≡ reached.old.levels.items ++ length front.now ∷ []) }
    ensures more { OnOk result (reached.new.classes ≡ reached.old.classes + length front.now) }
{
    reached.levels.push(front.len() as u64)?;
    let (next, opens) = round(rt, alloc, classes, &mut reached.marks, front)?;
    reached.classes += front.len() as u64;
    reached.opens += opens;
    Ok(next)
}

// Marks what the classes lead to, and gives those that are marked for it, and how many of the classes are open.
fn round(
    rt: &(impl Threads + Sync),
    alloc: Global,
    classes: &Classes,
    marks: &mut Marks,
    front: &[u32],
) -> Result<(Vec<u32>, u64), Memory>
    requires members { AreClasses classes.now.family front.now }
    requires bits { HasBits marks.old.words.items (classes_of classes.now.family) }
    ensures met { IfOk result (λ found. AreMet (Leads classes.now.family) marks.old.words.items marks.new.words.items front.now found.0.items) }
    ensures opens { IfOk result (λ found. Among (IsOpen classes.now.family) front.now found.1) }
{
    let parts = part_count(front);
    let mut next = Vec::new(alloc);
    let mut opens = 0;
    let mut first = 0;
    'windows: while first < parts {
        let end = first + WINDOW.min(parts - first);
        let found = parts_between(rt, alloc, classes, marks, front, first, end)?;
        opens += opens_of(&found);
        mark_parts(marks, &mut next, &found)?;
        first = end;
    }
    Ok((next, opens))
}

// How many classes of the parts are open.
fn opens_of(parts: &[FrontierPart]) -> u64
    requires { opens_of parts.now < 2 ^ 64 }
    ensures { result ≡ opens_of parts.now }
{
    parts.iter().map(|part| part.opens).sum()
}

// Marks and lists what the parts' classes lead to, if it isn't marked yet.
//
// Error: `Memory`.
fn mark_parts(marks: &mut Marks, next: &mut Vec<u32>, parts: &[FrontierPart]) -> Result<(), Memory>
    requires { HaveBits marks.old.words.items (outcomes_of parts.now) }
    ensures keeps { OnOk result (KeepsMarks marks.old.words.items marks.new.words.items) }
    ensures marked { OnOk result ((before done : List ℕ) → AreMarked before marks.old.words.items done next.old.items
        → AreMarked before marks.new.words.items (done ++ outcomes_of parts.now) next.new.items) }
{
    for part in parts {
        mark_new(marks, next, &part.outcomes)?;
    }
    Ok(())
}

// Marks and lists the numbers that aren't marked yet.
//
// Error: `Memory`.
fn mark_new(marks: &mut Marks, next: &mut Vec<u32>, outcomes: &[u32]) -> Result<(), Memory>
    requires { HaveBits marks.old.words.items outcomes.now }
    ensures keeps { OnOk result (KeepsMarks marks.old.words.items marks.new.words.items) }
    ensures marked { OnOk result ((before done : List ℕ) → AreMarked before marks.old.words.items done next.old.items
        → AreMarked before marks.new.words.items (done ++ outcomes.now) next.new.items) }
{
    for outcome in outcomes {
        mark_one(marks, next, *outcome)?;
    }
    Ok(())
}

// Marks and lists the number if it isn't marked yet.
//
// Error: `Memory`.
fn mark_one(marks: &mut Marks, next: &mut Vec<u32>, number: u32) -> Result<(), Memory>
    requires { HasBits marks.old.words.items (number + 1) }
    ensures keeps { OnOk result (KeepsMarks marks.old.words.items marks.new.words.items) }
    ensures marked { OnOk result ((before done : List ℕ) → AreMarked before marks.old.words.items done next.old.items
        → AreMarked before marks.new.words.items (done ++ number ∷ []) next.new.items) }
{
    if !marks.has(number) {
        next.push(number)?;
        marks.add(number);
    }
    Ok(())
}
