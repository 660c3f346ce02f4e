// What the classes of a block keep of the runs of its first hand, from which those of the other hands differ in nothing but what stands before.

use dob_rank::runs::RunKind;

/// A run of the first hand: the number of classes in the block before it, its kind, and the number of its table of stretches if it is mixed.
#[derive(Clone, Copy)]
pub(crate) struct FirstRun {
    pub(crate) before: u64,
    pub(crate) kind: RunKind,
    pub(crate) table: usize,
}
