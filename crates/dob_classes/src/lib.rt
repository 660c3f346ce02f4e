// Classes: a position of a family and its mirror image are one, which stands by the earlier of them. A class number counts the classes before. The positions
// of a run have the same hands and lions, and the lions' columns say of most runs whether they are representatives; in the others stretches of marks say it.
//
// Choices:
// - Classes are stored by block, run and stretch; docs/CLASSES.md shows how, in numbers. The block is found from the last one backwards, which has most of
//   the classes.
// - A block keeps the first hand's runs alone (`FirstRun`): those of another hand have as many classes each, so that only the hands before are added. The
//   hand of a class is found by a division, its lions by a search of seven steps.
// - A block has the places of each choice of its squares, a run the digits that its positions share, so that sets of squares are found without a division by
//   a base.
// - `count_classes` makes the same walk without its list, over the runs of one hand and then times the hands, with no memory.
// - What a count without tables, a row or an index says of a run is a `Row`, and `Row::before_run` alone makes a class's number of it: for each hand as many,
//   and those of the lions before. Its sums wrap, since a row may come from a caller.
// - A class's representative comes as a position or as the board that a side sees of it (`board_at`), which is made with no list of cells.
#![tactic(auto)]

mod any_rows;
mod bits;
mod block_classes;
mod class_counts;
mod class_numbers;
mod class_rows;
mod class_walks;
mod classes;
pub mod laws;
mod place_tables;
mod representatives;
mod rows;
mod run_shapes;
mod runs;
mod spots;
mod stretch_tables;
mod stretches;

pub use any_rows::class_number_by_any;
pub use class_counts::count_classes;
pub use class_numbers::{class_number, classes_in_run};
pub use class_rows::{block_number, count_blocks, write_row};
pub use class_walks::{MixedRun, StretchCursor};
pub use classes::Classes;
pub use representatives::representative;
pub use rows::{BEFORE_PLACE, HAND_PLACE, ROW_LEN, Row};

// What an index of classes is made by.
pub use dob_rank::block::{count_runs, run_size_in};
pub use dob_rank::runs::{LIONS, RunKind, Spot, kind_of};
pub use dob_rank::set_ranks::spot_of;
