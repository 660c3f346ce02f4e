// Answers about a piece set by the rules of a profile. Where it has no such rank or class, the answer is `none`.
use crate::opened::Opened;
use crate::question::{OfClasses, OfSet};
use dob_classes::Classes;
use dob_pieces::{Family, Memory};
use dob_rank::{size, unrank};
use dob_text::write_position;
use dob_unmove::back;
use dob_value::Fault;
use std::alloc::{AllocError, Global};
use std::fmt::Write;

/// What is asked about the set. An error is that of opening its classes, or no memory was left.
pub(crate) fn about_set(
    alloc: Global,
    opened: &mut Opened,
    matter: OfSet,
    family: Family,
) -> Result<String, Fault> {
    match matter {
        OfSet::Unrank(rank) => Ok(tell_unranked(alloc, family, rank)?),
        OfSet::Classes(matter) => {
            let classes = opened.classes_of(alloc, family)?;
            Ok(about_classes(alloc, classes, matter)?)
        }
    }
}

// What is asked about the classes.
fn about_classes(alloc: Global, classes: &Classes, matter: OfClasses) -> Result<String, Memory> {
    match matter {
        OfClasses::Size => Ok(tell_size(alloc, classes)?),
        OfClasses::ClassAt(class) => tell_class_at(alloc, classes, class),
        OfClasses::Back(class) => tell_back(alloc, classes, class),
        OfClasses::Edges { from, into } => tell_edges(alloc, classes, from, into),
    }
}

// The text of the position of that rank.
fn tell_unranked(alloc: Global, family: Family, rank: u64) -> Result<String, Memory> {
    if rank >= size(family) {
        return Ok(none(alloc)?);
    }
    write_position(alloc, &unrank(family, rank))
}

// `positions N classes N`.
fn tell_size(alloc: Global, classes: &Classes) -> Result<String, AllocError> {
    let positions = size(classes.family);
    let classes = classes.class_count();
    format!(in alloc; "positions {positions} classes {classes}")
}

// The text of the class's representative.
fn tell_class_at(alloc: Global, classes: &Classes, class: u64) -> Result<String, Memory> {
    if class >= classes.class_count() {
        return Ok(none(alloc)?);
    }
    write_position(alloc, &classes.class_at(class))
}

// `back P1 P2 ..`, the classes from which moves lead into the class, ascending, each as often as moves do.
fn tell_back(alloc: Global, classes: &Classes, class: u64) -> Result<String, Memory> {
    if class >= classes.class_count() {
        return Ok(none(alloc)?);
    }
    let mut text = "back".to_string(alloc)?;
    for before in &back(alloc, classes, class)? {
        write!(text, " {before}")?;
    }
    Ok(text)
}

// How many moves lead from the one class into the other.
fn tell_edges(alloc: Global, classes: &Classes, from: u64, into: u64) -> Result<String, Memory> {
    let count = classes.class_count();
    if from >= count || into >= count {
        return Ok(none(alloc)?);
    }
    let before = back(alloc, classes, into)?;
    let edges = before.iter().filter(|class| **class == from).count();
    Ok(edges.to_string(alloc)?)
}

fn none(alloc: Global) -> Result<String, AllocError> {
    "none".to_string(alloc)
}
