// What happens in a world.

/// An event of a world of nodes, which are named by their numbers.
#[derive(Clone, Copy)]
pub enum Event {
    /// A node expands the next settlement of its history.
    Expand(usize),
    /// A node applies the first of its own items.
    Own(usize),
    /// A node posts a batch to another one.
    Post { from: usize, to: usize },
    /// A node takes a batch of another one, and applies its items.
    Take { from: usize, to: usize },
    /// A node that has the token and is idle passes it.
    Pass(usize),
    /// Node 0 announces the end.
    Announce,
}
