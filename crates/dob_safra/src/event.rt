// What happens on the ring.

/// An event that changes counts, colours or the token. Nodes are named by their numbers.
#[derive(Clone, Copy)]
pub enum RingEvent {
    /// A node posts a batch to another one.
    Post { from: usize, to: usize },
    /// A node takes a batch of another one.
    Take { from: usize, to: usize },
    /// A node passes the token, or node 0 begins a new probe.
    Pass(usize),
    /// Node 0 announces the end.
    Announce,
}
