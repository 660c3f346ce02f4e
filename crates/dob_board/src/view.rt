// What a seat knows, and what happens on a board. No `BoardEvent` or `View` is made: they exist in the proofs alone.
use crate::Halt;
use crate::counts::Counts;
use dob_safra::{RingEvent, Token};
use std::collections::LinkedList;

// What happens on a board: an event of its ring, or that a node fails the run.
pub enum BoardEvent {
    OfRing(RingEvent),
    Failure(usize),
}

/// What a seat knows of its node. A node whose seat saw that the end was announced is white.
#[derive(Drop)]
pub struct SeatState {
    /// How many batches the node posted to each node.
    pub posted: Counts,
    /// How many batches the node took of each node.
    pub taken: Counts,
    /// The greatest number of batches that it saw each node post to it.
    pub seen: Counts,
    /// The node's colour.
    pub black: bool,
    /// The token, if the node saw it at itself and didn't pass it.
    pub token: Option<Token>,
    /// The halt that it saw.
    pub halt: Halt,
}

// What a seat knows: the number of all nodes, its first node, what it knows of its nodes from that one on (of one alone,
// once the board is open), the events that it has witnessed, the newest first, whether all that its nodes did are among these,
// and whether it is closed: it is of all nodes, and has witnessed all events.
pub struct View {
    pub size: u64,
    pub from: u64,
    pub stands: LinkedList<SeatState>,
    pub witnessed: LinkedList<BoardEvent>,
    pub own: bool,
    pub closed: bool,
}
