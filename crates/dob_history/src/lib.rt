// The histories of a build: how classes open, the settlements of a node's classes in order, what items make of them and of the node's cells, and that nodes
// which have applied all items hold the value table (`laws`).
//
// Choices:
// - A history makes room behind its settlements before an item is applied, so an item that runs out of memory changes nothing, before E13 and E12. A list in
//   segments doesn't show its room, so the history stores one blank more and counts the settlements itself.
// - The settlements of the start aren't stored: they follow from the statuses, which history and cells share (`Arc`); a cursor walks them. A further
//   settlement takes 8 bytes: cells count wins at odd distances and losses at even ones (`AreKept`), so each is a table's entry.
// - Why an item isn't taken is said by cases of its cause (`IsReason`, `StopsAt`); a cause that a step never gives is impossible.
// - The copies of an edge are numbered from 0: copy i knows the last settlement whose applied items are more than i.
// - A node finds the openings of its own classes itself (`own_openings`), so nodes open side by side without a list of all. Its share goes over them twice
//   and a class takes some 300 instructions to find, so they stand in a list of its own until the share is made.
// - In the laws a history is a list, and items are those that `items_from` lists. So nothing here needs outboxes, and it is proved beside them.
#![tactic(auto)]

mod history;
pub mod laws;
mod openings;
mod start_statuses;
mod taking;

pub use dob_share::Opening;
pub use history::History;
pub use openings::{opening, opening_in, own_openings};
pub use start_statuses::StartStatuses;
pub use taking::take_parts;
