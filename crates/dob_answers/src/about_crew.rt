// Answers about a build by threads: how many classes a piece set has, and how many of them it finds won, lost and drawn.
use crate::about_build::tell_outcomes;
use crate::about_world::Sizes;
use dob_pieces::{Family, Memory};
use dob_run::{AlwaysOpen, BATCH, CAPACITY, Fault, run_nodes};
use dob_value::Table;
use std::alloc::Global;
use std::sync::Wait;
use std::thread::Threads;

/// The sizes of a build, in words: its number of nodes, and behind that none, for those that the program takes, or that of batches
/// and that of inboxes. None if the text is no such thing.
pub(crate) fn sizes_in(text: &str) -> Option<Sizes> {
    let Some((nodes, rest)) = text.split_once(' ') else {
        return Some(Sizes {
            nodes: text.parse::<usize>().ok()?,
            batch: BATCH,
            capacity: CAPACITY,
        });
    };
    let (batch, capacity) = rest.split_once(' ')?;
    Some(Sizes {
        nodes: nodes.parse::<usize>().ok()?,
        batch: batch.parse::<usize>().ok()?,
        capacity: capacity.parse::<usize>().ok()?,
    })
}

/// `classes N win N loss N draw N`, as N nodes find them, each in a thread of its own. An error is that of the build.
pub(crate) fn about_crew<R: Threads + Wait + Sync>(
    rt: &R,
    alloc: Global,
    family: Family,
    sizes: Sizes,
) -> Result<String, Fault> {
    let built = run_nodes(
        rt,
        alloc,
        family,
        sizes.nodes,
        sizes.batch,
        sizes.capacity,
        &AlwaysOpen,
    )?;
    Ok(tell_classes(alloc, &built.table)?)
}

fn tell_classes(alloc: Global, table: &Table) -> Result<String, Memory> {
    let outcomes = tell_outcomes(alloc, table)?;
    Ok(format!(in alloc; "classes {} {outcomes}", table.class_count())?)
}
