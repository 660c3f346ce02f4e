// The classes of a family with what the sweeps need of them: their statuses and the numbers of their successors.
ghost use Rattle.std.specs.Prelude.{◌≡◌, ◌<◌, ◌++◌, ℕ, List, IfOk};
ghost use Rattle.dob_rank.specs.Families.{classes_of};
ghost use Rattle.dob_value.specs.ClassRows.{class_setup};
ghost use Rattle.dob_value.specs.Graphs.{ClassStandsFor, IsNode, IsGraph, status_at, successors_at};

use crate::outcomes::{class_after, representative_of};
use dob_classes::Classes;
use dob_moves::{Status, Walk};
use dob_pieces::{Family, Memory};
use std::alloc::Global;

/// The statuses of the classes of a family, and the numbers of their successors in one list: those of a class stand from
/// its start to the next one's.
#[derive(Drop)]
pub(crate) struct Graph {
    pub family: Family,
    pub statuses: Vec<Status>,
    pub starts: Vec<usize>,
    pub successors: Vec<usize>,
}

impl Graph {
    /// The status of the class with that number.
    pub(crate) fn status_of(&self, number: usize) -> Status
        requires graph { IsGraph self.now }
        requires within { number < classes_of self.now.family }
        ensures { result ≡ status_at self.now number }
    {
        self.statuses[number]
    }

    /// The numbers of the classes to which its moves lead.
    pub(crate) fn successors_of(&self, number: usize) -> &[usize]
        requires graph { IsGraph self.now }
        requires within { number < classes_of self.now.family }
        ensures { result.now ≡ successors_at self.now number }
    {
        &self.successors[self.starts[number]..self.starts[number + 1]]
    }
}

// Appends the numbers of the classes to which the moves of the class's representative lead, and gives its status. The walk is room for them.
fn push_successors(
    classes: &Classes,
    number: u64,
    walk: &mut Walk,
    successors: &mut Vec<usize>,
) -> Result<Status, Memory>
    requires { number < classes_of classes.now.family }
    ensures { IfOk result (λ status. (numbers : List ℕ) × (successors.new.items ≡ successors.old.items ++ numbers)
        × IsNode classes.now.family.profile (ClassStandsFor classes.now.family) (class_setup classes.now.family number) status numbers) }
{
    let position = representative_of(classes, number);
    let status = walk.start(classes.family.profile, &position);
    for place in 0..walk.len() {
        let outcome = class_after(classes, walk, place);
        successors.push(outcome as usize)?;
    }
    Ok(status)
}

pub(crate) fn graph_of(alloc: Global, classes: &Classes) -> Result<Graph, Memory>
    ensures family { IfOk result (λ graph. graph.family ≡ classes.now.family) }
    ensures graph { IfOk result (λ graph. IsGraph graph) }
{
    let mut statuses = Vec::new(alloc);
    let mut starts = Vec::new(alloc);
    let mut successors = Vec::new(alloc);
    let mut walk = Walk::new();
    starts.push(0)?;
    for number in 0..classes.class_count() {
        let status = push_successors(classes, number, &mut walk, &mut successors)?;
        statuses.push(status)?;
        starts.push(successors.len())?;
    }
    Ok(Graph {
        family: classes.family,
        statuses,
        starts,
        successors,
    })
}
