// What is known of each class before anything is settled: its status and its number of moves.
ghost use Rattle.std.specs.Prelude.{◌<◌, IfOk};
ghost use Rattle.dob_rank.specs.Families.{classes_of};
ghost use Rattle.dob_rank.specs.Families.{class_setup};
ghost use Rattle.dob_history.specs.Openings.{IsOpening, AreOpenings, AreOwnOpenings};

use dob_classes::Classes;
use dob_lists::{SegmentLength, Segments};
use dob_pieces::Memory;
use dob_safra::NodeCount;
use dob_share::{Opening, places_among};
use dob_value::representative_of;
use std::alloc::Global;

/// The status and the number of moves of the class of that number.
pub fn opening_in(classes: &Classes, class: u64) -> Opening
    requires { class < classes_of classes.now.family }
    ensures { IsOpening classes.now.family.profile (class_setup classes.now.family class) result }
{
    let position = representative_of(classes, class);
    let (status, moves) = position.status_and_count(classes.family.profile);
    Opening { status, moves }
}

/// The status and the number of moves of each class, in the order of the classes, in segments of that length.
///
/// # Errors
///
/// `Memory` if none was left for the list; nothing else is lost.
#[tactic(auto, using(crate::proofs::Found::openings_none, crate::proofs::Found::openings_more))]
pub fn opening(
    alloc: Global,
    classes: &Classes,
    segment_length: SegmentLength,
) -> Result<Segments<Opening>, Memory>
    ensures { IfOk result (λ openings. AreOpenings classes.now.family openings) }
{
    let mut openings = Segments::new(alloc, segment_length);
    for class in 0..classes.class_count() {
        openings.push(opening_in(classes, class))?;
    }
    Ok(openings)
}

/// The status and the number of moves of each class of owner `id` among `nodes`, in the order of the classes, in the longest segments.
///
/// # Errors
///
/// `Memory` if none was left for the list; nothing else is lost.
pub fn own_openings(
    alloc: Global,
    classes: &Classes,
    id: usize,
    nodes: NodeCount,
) -> Result<Segments<Opening>, Memory>
    requires { id < nodes }
    ensures { IfOk result (AreOwnOpenings classes.now.family nodes id) }
{
    let places = places_among(classes.class_count(), id as u64, nodes);
    let mut own = Segments::new(alloc, SegmentLength::longest());
    for place in 0..places {
        let class = place * nodes.get() as u64 + id as u64;
        own.push(opening_in(classes, class))?;
    }
    Ok(own)
}
