// How far each node of a crew is, where the others see it: the level of the settlement that it expands next. A node that runs ahead
// settles classes at longer distances first and improves them later, so it waits for the others. What it was told of them
// is part of a turn's contract; the words themselves only hint, and no value rests on them.
ghost use Rattle.std.specs.Prelude.{◌≡◌, IfOk};

use dob_pieces::Memory;
use dob_safra::NodeCount;
use std::alloc::Global;
use std::sync::Arc;
use std::sync::atomic::{AtomicU64, Ordering};

/// The level of each node of a crew, as the node said last, and which of them is whose; and what this node was told of each.
#[derive(Drop)]
pub struct Pace {
    levels: Arc<Vec<AtomicU64>>,
    pub(crate) node: usize,
    pub(crate) told: Vec<u16>,
}

impl Pace {
    ghost use Rattle.dob_runner.specs.Paces.{IsLimitOf, member_of};

    /// That of the first of `nodes` nodes, each on the first level.
    pub fn open(alloc: Global, nodes: NodeCount) -> Result<Pace, Memory>
        ensures { IfOk result (λ pace. member_of pace ≡ (0, nodes)) }
    {
        let count = nodes.get();
        let mut levels = Vec::with_capacity(alloc, count)?;
        for _ in 0..count {
            levels.push(AtomicU64::new(0))?;
        }
        let levels = Arc::new(alloc, levels)?;
        let told = vec![in alloc; 0; count]?;
        Ok(Pace {
            levels,
            node: 0,
            told,
        })
    }

    /// That of a node of the same crew, of `nodes` nodes as it was opened for.
    pub fn of(&self, alloc: Global, node: usize, nodes: NodeCount) -> Result<Pace, Memory>
        ensures { IfOk result (λ pace. member_of pace ≡ (node, nodes)) }
    {
        let levels = Arc::try_clone(&self.levels)?;
        let told = vec![in alloc; 0; nodes.get()]?;
        Ok(Pace { levels, node, told })
    }

    // Says on which level the node is, none if it has nothing to expand, and gives the highest one that it may expand now, as it is told
    // of the others.
    pub(crate) fn exchange_levels(&mut self, level: Option<u16>) -> u16
        ensures place { member_of self.new ≡ member_of self.old }
        ensures limit { IsLimitOf self.new result }
    {
        self.listen(level);
        self.limit()
    }

    // Says on which level the node is, and looks on which one each node is.
    fn listen(&mut self, level: Option<u16>)
        ensures { member_of self.new ≡ member_of self.old }
    {
        self.tell(level);
        for node in 0..self.told.len() {
            self.told[node] = self.said_by(node);
        }
    }

    // The highest level that the node may expand: one above the least that it was told of the others.
    fn limit(&self) -> u16
        ensures { IsLimitOf self.now result }
    {
        let mut least = u16::MAX;
        for node in 0..self.told.len() {
            if node != self.node {
                least = least.min(self.told[node]);
            }
        }
        least.saturating_add(1)
    }

    // Says on which level the node is.
    fn tell(&self, level: Option<u16>) {
        let Some(own) = self.levels.get(self.node) else {
            return;
        };
        match level {
            Some(level) => own.store(u64::from(level), Ordering::SeqCst),
            None => own.store(u64::MAX, Ordering::SeqCst),
        }
    }

    // On which level that node is, as it said last.
    fn said_by(&self, node: usize) -> u16 {
        match self.levels.get(node) {
            Some(level) => level_of(level.load(Ordering::SeqCst)),
            None => 0,
        }
    }
}

// The level that a word says: a number above all levels says that the node has nothing to expand.
fn level_of(word: u64) -> u16 {
    u16::try_from(word).unwrap_or(u16::MAX)
}
