// `Segments`, the long lists in which tables, cells and outboxes are kept: they grow without moving what they have. With them the powers of 2 by which a place
// is split.
//
// Choices:
// - Lists in segments suit long lists: the first segment grows from nothing, each further one is reserved whole. A push past 2^56 items is out of memory.
// - `SegmentLength` is a type, so calls that take one have no precondition. It is the greatest power of 2 up to what is asked for, since a division at each
//   read would double the cost of a random read.
// - Contracts see a list's items, not its segments; tests ask how long these are.
#![tactic(auto)]

mod powers;
mod segment_length;
mod segmented;

pub use powers::{join_by_power, split_by_power};
pub use segment_length::SegmentLength;
pub use segmented::{Segments, SegmentsIter};
