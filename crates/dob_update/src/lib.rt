// Items on their way from owner to owner: the outbox of what one has still to send to another, and the batches that are
// cut from it.
//
// Choices:
// - A batch lists each settlement with the number of its items in it, so that `shorten` needs no memory. Its fields are private, so that its type can
//   promise what it does.
// - A queue and a batch store only the classes of their items beside the settlements, 8 bytes an item; an item of 24 bytes is made for who lists them
//   (`items`, `list_items`). A node hands its outboxes classes (`add_targets`); `add` is for a caller that has items.
// - A settlement with its number of items is a `Part`, 24 bytes, which keeps the values as a table's codes: so no item has a value that no table can have,
//   and who takes a batch tests none.
// - A queue shows for how many items it has room, so that a node makes room in all of its queues before it changes one.
// - All room that a batch takes is made before its outbox changes. Then parts and classes are copied with no further test of memory.
#![tactic(auto)]

mod batch;
mod items;
mod outbox;
mod queue;
mod sizes;

pub use batch::Batch;
pub use items::push_items;
pub use outbox::Outbox;
pub use queue::ItemQueue;
pub use sizes::{BatchSize, Capacity};
