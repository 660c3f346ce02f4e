// What is known of each class before anything is settled, by several threads.
ghost use Rattle.std.specs.Prelude.{◌<◌, ◌≤◌, IfOk};
ghost use Rattle.dob_rank.specs.Families.{class_setup, classes_of};
ghost use Rattle.dob_history.specs.Openings.{IsOpening, AreOpenings};
ghost use Rattle.dob_gather.specs.Scans.{AreOpeningsFrom};

use crate::gathering::AT_A_TIME;
use dob_classes::Classes;
use dob_history::opening_in;
use dob_lists::{SegmentLength, Segments};
use dob_pieces::Memory;
use dob_share::Opening;
use rayon::prelude::*;
use std::alloc::Global;
use std::thread::Threads;

/// The status and the number of moves of each class, in the order of the classes: the list that `opening` gives, made by as
/// many threads as there are processors.
pub fn scan(
    rt: &(impl Threads + Sync),
    alloc: Global,
    classes: &Classes,
    segment_length: SegmentLength,
) -> Result<Segments<Opening>, Memory>
    ensures { IfOk result (λ openings. AreOpenings classes.now.family openings) }
{
    let count = classes.class_count();
    let mut openings = Segments::new(alloc, segment_length);
    let mut class = 0;
    'parts: while class < count {
        let end = count.min(class + AT_A_TIME);
        let part = scan_part(rt, alloc, classes, class, end)?;
        openings.append(&part)?;
        class = end;
    }
    Ok(openings)
}

// The openings of the classes from `first` on, before `end`.
fn scan_part(
    rt: &(impl Threads + Sync),
    alloc: Global,
    classes: &Classes,
    first: u64,
    end: u64,
) -> Result<Vec<Opening>, Memory>
    requires order { first ≤ end }
    requires within { end ≤ classes_of classes.now.family }
    ensures { IfOk result (λ openings. AreOpeningsFrom classes.now.family first end openings.items) }
{
    let openings = (first..end)
        .into_par_iter()
        .map(
            |class: u64| -> Opening
                requires { class < classes_of classes.now.family }
                ensures { IsOpening classes.entry.now.family.profile (class_setup classes.entry.now.family class) result }
            { opening_in(classes, class) },
        )
        .collect::<Vec<_>>(rt, alloc)?;
    Ok(openings)
}
