// Whether the run goes on.

/// Whether the run goes on, and if not, why.
#[derive(Clone, Copy, PartialEq, Eq)]
pub enum Halt {
    /// The run goes on.
    Running,
    /// Node 0 has announced the end of the run.
    Ended,
    /// The node of that number failed it.
    Failed(usize),
}
