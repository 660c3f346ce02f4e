// A world of nodes, of links between them and of a ring that detects the end, in which one event happens at a time.
//
// Choices:
// - `Link` says both that Full comes only at capacity and that Ok comes only below it. `ListLink` is a ring of slots of the kit's `circular_buffer`.
// - A world lends a history as a small view (`History`), since a node stores settlements in 8 bytes each and has no list to lend; `sent` and `applied` are
//   lent slices.
// - Why there is no world is one relation by cases of the fault (`HasSettingFault`).
// - The ring stands beside nodes and links (`State`), and an event changes it by `Moved` of `dob_safra`. That a white node is idle is said of white nodes
//   (`Matches.idle`), since no proof can test for idleness.
// - A world counts batches by link, and each node's counter (`Detector`), so that no step adds up a row. The events of a round have numbers (`round_event`);
//   a still round means that the end is announced.
// - An event's lists grow before its node changes, so a world out of memory shows what it showed (`shown`). A stopped world isn't one whose end is announced
//   (`IsKept`). The event says what a stop leaves (`IsLeftBy`); a batch with a distance too great doesn't go back to its link, where its first items would
//   stand a second time.
// - A world's type says that it has as many nodes and lanes as it claims, so a call that lends one requires only an index in range.
#![tactic(auto)]

mod detector;
mod drives;
mod event;
mod lane;
pub mod laws;
mod link;
mod list_link;
mod lists;
mod parts;
mod runs;
mod step;
mod steps;
mod tables;
mod world;

pub use dob_share::BuildFault as Fault;
pub use event::Event;
pub use link::{Full, Link};
pub use list_link::ListLink;
pub use lists::History;
pub use runs::run;
pub use step::Step;
pub use world::World;
