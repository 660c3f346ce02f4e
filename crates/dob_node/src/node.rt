// A node: what its steps change, and what has failed of them. Once a step has failed, none is made.
ghost use Rattle.std.specs.Prelude.{◌≡◌, ◌<◌, ◌≤◌, ◌^◌, ◌↔◌, length, slice_get, None, Some, IsTrue, IfOk, IfErr, OnOk, MatchOption};
ghost use Rattle.dob_history.specs.Stores.{starts_of};
ghost use Rattle.dob_node.specs.Nodes.{IsSound, IsShareOf, IsOpenedBy};

use crate::node_core::Core;
use crate::outboxes::{are_empty, empty_outboxes};
use dob_classes::Classes;
use dob_history::{History, StartStatuses, own_openings};
use dob_lists::{SegmentLength, Segments};
use dob_pieces::{Family, Memory};
use dob_safra::NodeCount;
use dob_share::{Cause, Item, Opening, Settlement, Share};
use dob_update::{Batch, BatchSize, ItemQueue};
use dob_value::Value;
use std::alloc::Global;
use std::marker::Model;

/// A node that owns the classes k * nodes + id of a family, one of several nodes. Once a call that grows it or applies an item has failed, the
/// node has failed for that cause, and what it has stays as it is.
#[derive(Drop)]
pub struct Node {
    core: Core,
    failed: Option<Cause>,
}

impl Model for Node {
    ghost use Rattle.dob_node.specs.NodeViews.{NodeView, node_of};

    ghost Value = { NodeView };

    ghost view = { λ node. node_of node.core node.failed };
}

/// What a node has to give when it is done: the values of its own classes, in the order of the classes.
#[derive(Drop)]
pub struct Part {
    pub id: usize,
    pub values: Vec<Value>,
}

impl Node {
    ghost use Rattle.dob_history.specs.Openings.{AreOpenings};
    ghost use Rattle.dob_node.specs.Nodes.{outbox_to, IsOpened, IsOpenedOf, IsIdle, AreValuesNow};
    ghost use Rattle.dob_node.specs.Levels.{HasLevel};
    ghost use Rattle.dob_node.specs.NodeSteps.{Keeps, Expands, AppliesOwn, AppliesEveryOwn, AppliesAll, MakesRoom, Cuts};
    ghost use Rattle.dob_share.specs.Shares.{IsOwn, HasValueNow};

    /// The node of owner `id`, one of `nodes`, before its first step. Its history has a settlement for each own
    /// class that is caught, tried or stuck, in the order of the classes. Its lists have segments as long as those of the openings.
    pub fn open(
        alloc: Global,
        openings: &Segments<Opening>,
        family: Family,
        id: usize,
        nodes: NodeCount,
    ) -> Result<Node, Memory>
        requires openings { AreOpenings family openings.now }
        requires owner { id < nodes }
        ensures opened { IfOk result (λ node. IsOpened openings.now family id nodes node) }
        ensures sound { IfOk result (λ node. IsSound node) }
    {
        let share = Share::open(alloc, openings, id, nodes)?;
        node_with(alloc, share, family, id, nodes, openings.segment_length())
    }

    /// The node as above, which finds the openings of its own classes itself, those of no others. Its lists have the longest segments.
    pub fn open_own(
        alloc: Global,
        classes: &Classes,
        id: usize,
        nodes: NodeCount,
    ) -> Result<Node, Memory>
        requires { id < nodes }
        ensures opened { IfOk result (IsOpenedOf classes.now.family id nodes) }
        ensures sound { IfOk result (λ node. IsSound node) }
    {
        let own = own_openings(alloc, classes, id, nodes)?;
        let share = Share::open_own(alloc, &own, id, nodes)?;
        node_with(
            alloc,
            share,
            classes.family,
            id,
            nodes,
            own.segment_length(),
        )
    }

    /// Expands the first settlement of the history that isn't: its items for the own classes are to be applied, those for
    /// other nodes' classes are to be sent. False if there is none.
    ///
    /// # Errors
    ///
    /// `Memory`, by which the node fails and stays as it was.
    pub fn expand(&mut self, classes: &Classes) -> Result<bool, Cause>
        requires family { classes.now.family ≡ self.old.family }
        requires sound { IsSound self.old }
        requires going { self.old.failed ≡ None }
        ensures step { Expands result self.old self.new }
        ensures keeps { Keeps result self.new }
    {
        noted(&mut self.failed, self.core.expand(classes))
    }

    /// The first of the own items, if there is one.
    pub fn first_own(&self) -> Option<Item>
        ensures { result ≡ slice_get self.now.own 0 }
    {
        self.core.own.first()
    }

    /// Applies the first of the own items. False if there is none.
    ///
    /// # Errors
    ///
    /// By which the node fails and stays as it was: `Memory`; else `Contradiction` if the item doesn't fit, else `TooDeep` where
    /// its class's value would be too deep.
    pub fn apply_own(&mut self) -> Result<bool, Cause>
        requires sound { IsSound self.old }
        requires going { self.old.failed ≡ None }
        ensures step { AppliesOwn result self.old self.new }
        ensures keeps { Keeps result self.new }
    {
        noted(&mut self.failed, self.core.apply_own())
    }

    /// Applies all own items in order, as `apply_own` does each. It looks at the classes of 32 items before it applies the first of these.
    ///
    /// # Errors
    ///
    /// By which the node fails, with that item as the first of its own: `Memory`; else `Contradiction` if the item doesn't fit, else
    /// `TooDeep` if its class's value would be too deep.
    pub fn apply_every_own(&mut self) -> Result<(), Cause>
        requires sound { IsSound self.old }
        requires going { self.old.failed ≡ None }
        ensures step { AppliesEveryOwn result self.old self.new }
        ensures keeps { Keeps result self.new }
    {
        noted(&mut self.failed, self.core.apply_every_own())
    }

    /// Applies the items of a batch in order. The batch has to be of the node's family and number of nodes. An item for a class of another
    /// node doesn't fit. It makes its growths first.
    ///
    /// # Errors
    ///
    /// By which the node fails: `Memory`, which leaves it as it was, and never comes if there is room for as many items
    /// (`reserve`); after the others only the items before one are applied, as many as `taken` says: `Contradiction` if it
    /// doesn't fit its class's cell then; `TooDeep` if it fits and its class's value would be too deep.
    pub fn apply_batch(&mut self, batch: &Batch) -> Result<(), Cause>
        requires sound { IsSound self.old }
        requires family { batch.now.family ≡ self.old.family }
        requires n { batch.now.n ≡ self.old.n }
        requires going { self.old.failed ≡ None }
        ensures step { AppliesAll batch.now.items result self.old self.new }
        ensures keeps { Keeps result self.new }
    {
        noted(&mut self.failed, self.core.apply_batch(batch))
    }

    /// Makes the growths of an `apply_batch` of up to that many items, which then doesn't answer `Memory`.
    ///
    /// # Errors
    ///
    /// `Memory`, by which the node fails and stays as it was.
    pub fn reserve(&mut self, items: usize) -> Result<(), Cause>
        requires sound { IsSound self.old }
        requires going { self.old.failed ≡ None }
        ensures step { MakesRoom items result self.old self.new }
        ensures keeps { Keeps result self.new }
    {
        noted(&mut self.failed, self.core.reserve(items))
    }

    /// How many items were applied of the batch that was applied last: all of them where that answered Ok.
    pub fn taken(&self) -> usize
        ensures { result ≡ self.now.taken }
    {
        self.core.taken
    }

    /// Why the node has failed, where it has.
    pub fn failed(&self) -> Option<Cause>
        ensures { result ≡ self.now.failed }
    {
        self.failed
    }

    /// Cuts a batch of those items that the node has to send to the node `to`. `None` if it has none.
    ///
    /// # Errors
    ///
    /// By which the node fails and stays as it was: `Counts` if something is left to send and 2 to the power of 40 batches
    /// were cut for that node before; `Memory`.
    pub fn cut_for(&mut self, to: usize, size: BatchSize) -> Result<Option<Batch>, Cause>
        requires sound { IsSound self.old }
        requires to { to < self.old.n }
        requires going { self.old.failed ≡ None }
        ensures step { Cuts to size result self.old self.new }
        ensures keeps { Keeps result self.new }
    {
        noted(&mut self.failed, self.core.cut_for(to, size))
    }

    /// Whether it has nothing to expand, to apply or to send.
    pub fn is_idle(&self) -> bool
        ensures { IsTrue result ↔ IsIdle self.now }
    {
        if self.core.expanded != self.core.history.len() {
            return false;
        }
        if !self.core.own.is_empty() {
            return false;
        }
        are_empty(&self.core.outboxes)
    }

    /// The level of the first settlement that isn't expanded: its distance, and 1 of each one of the opening. None if all are expanded.
    pub fn level(&self) -> Option<u16>
        requires { IsSound self.now }
        ensures { MatchOption result (self.now.expanded ≡ length self.now.history.settlements) (λ level. HasLevel self.now level) }
    {
        if self.core.expanded == self.core.history.len() {
            return None;
        }
        Some(self.core.history.level(self.core.expanded))
    }

    /// How many settlements it has expanded, the first ones of its history.
    pub fn expanded(&self) -> u64
        ensures { result ≡ self.now.expanded }
    {
        self.core.expanded
    }

    /// How many items it has to send to the node `to`.
    pub fn left_for(&self, to: usize) -> usize
        requires sound { IsSound self.now }
        requires to { to < self.now.n }
        ensures { result ≡ length (outbox_to self.now to).items }
    {
        self.core.outboxes[to].len()
    }

    /// How many own items it has to apply.
    pub fn left_for_itself(&self) -> usize
        ensures { result ≡ length self.now.own }
    {
        self.core.own.len()
    }

    /// How many settlements its history has.
    pub fn settled(&self) -> u64
        ensures count { result ≡ length self.now.history.settlements }
        ensures bound { result ≤ 2 ^ 57 }
    {
        self.core.history.len()
    }

    /// The settlement of that number of its history.
    pub fn settlement(&self, number: u64) -> Settlement
        requires { number < length self.now.history.settlements }
        ensures { slice_get self.now.history.settlements number ≡ Some result }
    {
        self.core.history.get(number)
    }

    /// The present value of an own class.
    pub fn value(&self, class: u64) -> Value
        requires { IsOwn self.now.share class }
        ensures { HasValueNow self.now.share class result }
    {
        self.core.share.value(class)
    }

    /// The node's share. All else of the node is gone, its history first of all.
    pub fn into_share(self) -> Share
        ensures { result ≡ self.share }
    {
        let Node { core, .. } = self;
        let Core { share, .. } = core;
        share
    }

    /// The values of the own classes. All else of the node is gone.
    ///
    /// # Errors
    ///
    /// `Memory`, which gives the node up.
    pub fn into_part(self) -> Result<Part, Memory>
        requires { IsSound self }
        ensures id { IfOk result (λ part. part.id ≡ self.id) }
        ensures values { IfOk result (λ part. AreValuesNow self.share part.values.items) }
    {
        let values = self.core.own_values()?;
        Ok(Part {
            id: self.core.id,
            values,
        })
    }
}

// The node of owner `id`, one of `nodes`, that has this share of the family's classes, before its first step.
fn node_with(
    alloc: Global,
    share: Share,
    family: Family,
    id: usize,
    nodes: NodeCount,
    segment_length: SegmentLength,
) -> Result<Node, Memory>
    requires owner { id < nodes }
    requires share { IsShareOf family id nodes share }
    ensures opened { IfOk result (IsOpenedBy share family id nodes) }
    ensures sound { IfOk result (λ node. IsSound node) }
{
    let history = opening_history(alloc, &share, id, nodes, segment_length)?;
    let outboxes = empty_outboxes(alloc, family, nodes, id)?;
    let core = Core {
        alloc,
        family,
        id,
        nodes,
        share,
        history,
        expanded: 0,
        own: ItemQueue::new(alloc),
        outboxes,
        targets: Vec::new(alloc),
        taken: 0,
    };
    Ok(Node { core, failed: None })
}

// The answer of a step, whose failure is noted.
fn noted<T>(failed: &mut Option<Cause>, answer: Result<T, Cause>) -> Result<T, Cause>
    ensures same { result ≡ answer }
    ensures going { OnOk result (failed.new ≡ failed.old) }
    ensures failed { IfErr result (λ why. failed.new ≡ Some why) }
{
    if let Err(why) = &answer {
        *failed = Some(*why);
    }
    answer
}

// The history of owner `id`, one of `nodes`, when its node opens, by the statuses of its classes.
fn opening_history(
    alloc: Global,
    share: &Share,
    id: usize,
    nodes: NodeCount,
    segment_length: SegmentLength,
) -> Result<History, Memory>
    requires { id < nodes }
    ensures { IfOk result (λ history. history ≡ record { id = id; n = nodes; settlements = starts_of nodes id share.now.statuses; room = 0 }) }
{
    let starts = StartStatuses::new(share.statuses()?);
    Ok(History::new(alloc, id, nodes, starts, segment_length))
}
