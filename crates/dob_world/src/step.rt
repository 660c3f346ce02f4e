// What came of an event.

/// Whether an event was done.
#[derive(Clone, Copy, PartialEq, Eq)]
pub enum Step {
    /// The event could happen, and has.
    Done,
    /// The event couldn't happen, and nothing is changed.
    Skipped,
}
