// The seat of a node.
ghost use Rattle.std.specs.Prelude.{◌≡◌, ◌+◌, ◌<◌, ◌≤◌, ◌^◌, ℕ, [], slice_index, length, false};
ghost use Rattle.std.specs.Arc.{arc_value};
ghost use Rattle.dob_board.specs.declared.halt.Halt.TheVariants.{Ended};
ghost use Rattle.dob_board.specs.Words.{word_count, halt_word};
ghost use Rattle.dob_board.specs.Views.{one, IsTokenInBounds};
ghost use Rattle.dob_safra.specs.Tokens.{most_nodes};

use crate::rule::Order;
use crate::view::{SeatState, View};
use atomic_table::{Seat, Table};
use dob_safra::NodeCount;
use std::alloc::Global;
use std::sync::Arc;

// The words of a board.
pub(crate) type Words = Table<(), View, usize, Order, Global>;

/// The seat of one node of a board. One thread at a time steps with it.
#[derive(Drop)]
pub struct NodeSeat {
    pub(crate) board: Arc<Words>,
    pub(crate) seat: Seat<(), View>,
    /// The node's number.
    pub node: usize,
    /// How many nodes the board has.
    pub nodes: NodeCount,
    /// What the seat's node has posted and taken, what it has seen of the others, and whether it was told to halt.
    pub stand: SeatState,
    pub ghost size: { nodes ≤ most_nodes },
    pub ghost within: { node < nodes },
    pub ghost of_board: { seat.table_id ≡ (arc_value board).shared.table_id },
    pub ghost words: { (arc_value board).shared.table_id.words ≡ word_count nodes },
    pub ghost key: { (arc_value board).shared.key ≡ nodes },
    pub ghost posted_len: { length stand.posted ≡ nodes },
    pub ghost taken_len: { length stand.taken ≡ nodes },
    pub ghost seen_len: { length stand.seen ≡ nodes },
    pub ghost few_posted: { (k : ℕ) → k < nodes → slice_index stand.posted k ≤ 2 ^ 40 },
    pub ghost few_taken: { (k : ℕ) → k < nodes → slice_index stand.taken k ≤ 2 ^ 40 },
    pub ghost in_bounds: { IsTokenInBounds nodes node stand },
    pub ghost halt_within: { halt_word stand.halt < 2 + nodes },
    pub ghost white: { stand.halt ≡ Ended → stand.black ≡ false },
    pub ghost view_is: { seat.me ≡ (one nodes node stand seat.me.0.witnessed, []) },
}
