// What a node's steps change: its cells, its history, its own items and its outboxes. A step that fails leaves no note here.
ghost use Rattle.std.specs.Prelude.{◌≡◌, ◌<◌, IfOk};

use crate::outboxes::{add_for_others, reserve_for_others};
use dob_classes::Classes;
use dob_history::{History, take_parts};
use dob_pieces::{Family, Memory};
use dob_safra::NodeCount;
use dob_share::{Cause, Share};
use dob_unmove::back_into;
use dob_update::{Batch, BatchSize, ItemQueue, Outbox};
use dob_value::Value;
use std::alloc::Global;
use std::mem;

/// How many batches a node may cut for another.
pub const MAX_BATCHES: u64 = 1 << 40;

/// State of node `id`: the cells of its classes, the classes k * nodes + id of a family, with their history, whose first
/// settlements are expanded; the items that it has for itself; and its outboxes.
#[derive(Drop)]
pub(crate) struct Core {
    pub(crate) alloc: Global,
    pub(crate) family: Family,
    pub(crate) id: usize,
    pub(crate) nodes: NodeCount,
    pub(crate) share: Share,
    pub(crate) history: History,
    pub(crate) expanded: u64,
    pub(crate) own: ItemQueue,
    pub(crate) outboxes: Vec<Outbox>,
    // A list whose room each expansion uses again.
    pub(crate) targets: Vec<u64>,
    // How many items were applied of the batch that was applied last.
    pub(crate) taken: usize,
}

impl Core {
    ghost use Rattle.dob_node.specs.NodeViews.{going};
    ghost use Rattle.dob_node.specs.Nodes.{IsSound, AreValuesNow};
    ghost use Rattle.dob_node.specs.NodeSteps.{Expands, AppliesOwn, AppliesEveryOwn, AppliesAll, MakesRoom, Cuts};

    /// Expands the next settlement. False if there is none.
    pub(crate) fn expand(&mut self, classes: &Classes) -> Result<bool, Cause>
        requires family { classes.now.family ≡ self.old.family }
        requires sound { IsSound (going self.old) }
        ensures step { Expands result (going self.old) (going self.new) }
        ensures sound { IsSound (going self.new) }
    {
        if self.expanded == self.history.len() {
            return Ok(false);
        }
        let news = self.history.reach(self.expanded);
        let room = mem::replace(&mut self.targets, Vec::new(self.alloc));
        let targets = back_into(room, classes, news.class())?;
        self.own.reserve(targets.len())?;
        reserve_for_others(&mut self.outboxes, targets.len(), self.id)?;
        add_for_others(&mut self.outboxes, &news, &targets, self.id);
        self.own
            .add_owned(&news, &targets, self.nodes.get(), self.id);
        self.targets = targets;
        self.expanded += 1;
        Ok(true)
    }

    /// Applies the first of the own items. False if there is none.
    pub(crate) fn apply_own(&mut self) -> Result<bool, Cause>
        requires { IsSound (going self.old) }
        ensures step { AppliesOwn result (going self.old) (going self.new) }
        ensures sound { IsSound (going self.new) }
    {
        let Some(item) = self.own.first() else {
            return Ok(false);
        };
        let seen = self.share.see(item.to);
        self.history.take_seen(&mut self.share, item, seen)?;
        self.own.drop_front(1);
        Ok(true)
    }

    /// Applies the own items in order. After a failure those before the one that can't be applied are gone.
    pub(crate) fn apply_every_own(&mut self) -> Result<(), Cause>
        requires { IsSound (going self.old) }
        ensures step { AppliesEveryOwn result (going self.old) (going self.new) }
        ensures sound { IsSound (going self.new) }
    {
        let mut taken = 0;
        let answer = take_parts(
            &mut self.share,
            &mut self.history,
            &mut taken,
            self.own.parts(),
            self.own.classes(),
        );
        self.own.drop_front(taken);
        answer
    }

    /// Applies the items of a batch in order, and makes its growths first.
    pub(crate) fn apply_batch(&mut self, batch: &Batch) -> Result<(), Cause>
        requires { IsSound (going self.old) }
        ensures step { AppliesAll batch.now.items result (going self.old) (going self.new) }
        ensures sound { IsSound (going self.new) }
    {
        self.taken = 0;
        self.history.reserve(batch.len() as u64)?;
        take_parts(
            &mut self.share,
            &mut self.history,
            &mut self.taken,
            batch.parts(),
            batch.classes(),
        )?;
        Ok(())
    }

    /// Makes room for as many settlements.
    pub(crate) fn reserve(&mut self, items: usize) -> Result<(), Cause>
        requires { IsSound (going self.old) }
        ensures step { MakesRoom items result (going self.old) (going self.new) }
        ensures sound { IsSound (going self.new) }
    {
        self.history.reserve(items as u64)?;
        Ok(())
    }

    /// Cuts a batch of those items that are to be sent to the node `to`. `None` if there are none.
    pub(crate) fn cut_for(&mut self, to: usize, size: BatchSize) -> Result<Option<Batch>, Cause>
        requires sound { IsSound (going self.old) }
        requires to { to < self.old.nodes }
        ensures step { Cuts to size result (going self.old) (going self.new) }
        ensures sound { IsSound (going self.new) }
    {
        let outbox = &mut self.outboxes[to];
        if outbox.is_empty() {
            return Ok(None);
        }
        if outbox.cut_count() >= MAX_BATCHES {
            return Err(Cause::Counts);
        }
        let batch = outbox.cut(size)?;
        Ok(batch)
    }

    /// The values of the own classes.
    pub(crate) fn own_values(&self) -> Result<Vec<Value>, Memory>
        requires { IsSound (going self.now) }
        ensures { IfOk result (λ values. AreValuesNow self.now.share values.items) }
    {
        let places = self.share.places();
        let mut values = Vec::with_capacity(self.alloc, places as usize)?;
        for place in 0..places {
            let class = place * self.nodes.get() as u64 + self.id as u64;
            values.push(self.share.value(class))?;
        }
        Ok(values)
    }
}
