// The sizes that a crew is opened for.
ghost use Rattle.std.specs.Prelude.{IfOk, IfErr, OnOk};
ghost use Rattle.dob_crew.specs.Faults.{AreWithin, HasSizeFault};

use dob_safra::NodeCount;
use dob_share::BuildFault;
use dob_update::{BatchSize, Capacity};

/// The most items of a batch where the program builds: a batch takes 6 kB for them, and a node's turn, which makes about so
/// many, stays short.
pub const BATCH: usize = 256;

/// The most batches in an inbox of such a build: a sender may be some 64 turns ahead of its receiver before it has to wait,
/// and a full inbox has 0.4 MB of items.
pub const CAPACITY: usize = 64;

/// How many nodes a crew has, the most items of a batch that they cut, and the most batches that an inbox of theirs holds.
#[derive(Clone, Copy)]
pub struct CrewSizes {
    pub nodes: NodeCount,
    pub batch_size: BatchSize,
    pub capacity: Capacity,
    pub ghost within: { AreWithin nodes batch_size capacity },
}

impl CrewSizes {
    ghost use Rattle.dob_crew.specs.CrewSizes.{AreThese};

    /// These sizes.
    ///
    /// # Errors
    ///
    /// Tested in this order: `Nodes` if `nodes` isn't 1 to 16; `Sizes` if `batch_size` isn't 1 to 4096 or `capacity`
    /// not 1 to 1024.
    pub fn new(nodes: usize, batch_size: usize, capacity: usize) -> Result<CrewSizes, BuildFault>
        ensures sizes { IfOk result (AreThese nodes batch_size capacity) }
        ensures within { OnOk result (AreWithin nodes batch_size capacity) }
        ensures fault { IfErr result (HasSizeFault nodes batch_size capacity) }
    {
        let Some(nodes) = NodeCount::new(nodes) else {
            return Err(BuildFault::Nodes);
        };
        let Some(batch_size) = BatchSize::new(batch_size) else {
            return Err(BuildFault::Sizes);
        };
        let Some(capacity) = Capacity::new(capacity) else {
            return Err(BuildFault::Sizes);
        };
        Ok(CrewSizes {
            nodes,
            batch_size,
            capacity,
        })
    }

    /// Those by which the program builds with so many nodes.
    pub fn usual(nodes: NodeCount) -> CrewSizes
        ensures { AreThese nodes 256 64 result }
    {
        let _count = nodes.get();
        let Some(batch_size) = BatchSize::new(BATCH) else {
            unreachable!()
        };
        let Some(capacity) = Capacity::new(CAPACITY) else {
            unreachable!()
        };
        CrewSizes {
            nodes,
            batch_size,
            capacity,
        }
    }
}
