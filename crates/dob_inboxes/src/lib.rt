// The inboxes of a crew, one for each node: how they are laid, with an outlet of each node to each of them, and how they are ended, when the ends of each come
// together again.
//
// The files: `rows` has vectors in a vector, by which the ends of all inboxes are sorted; `inbox_open` lays the inboxes and `inbox_close` ends them.
#![tactic(auto)]

mod inbox_close;
mod inbox_open;
mod rows;

pub use inbox_close::{part_outlets, rejoin_all, spread_slot};
pub use inbox_open::open_inboxes;
pub use rows::{empty_rows, push_each};
