// The world: nodes that own the classes of a family, a lane from each to each, and what detects the end.
ghost use Rattle.std.specs.Prelude.{◌≡◌, ◌↔◌, ◌+◌, ◌*◌, ◌^◌, ◌<◌, ◌≤◌, true, false, IsTrue, IsNone, IfOk, IfErr, IfSome, OnOk, OnErr, Err, vec_len};
ghost use Rattle.dob_rank.specs.Families.{classes_of};

use crate::detector::Detector;
use crate::event::Event;
use crate::lane::Lane;
use crate::parts::{open_lanes, open_nodes};
use crate::step::Step;
use crate::steps::{apply_own, post, receive};
use dob_classes::Classes;
use dob_history::opening;
use dob_lists::SegmentLength;
use dob_node::Node;
use dob_pieces::{Family, Memory};
use dob_safra::NodeCount;
use dob_share::BuildFault;
use dob_update::{BatchSize, Capacity};
use std::alloc::Global;

/// Nodes that each own a share of a family's classes, the links between them, the lists of all items that were
/// sent over these and applied, and the ring that detects the end. There are as many nodes and lanes as it says, also after a
/// stop.
#[derive(Drop)]
pub struct World {
    pub(crate) alloc: Global,
    pub(crate) classes: Classes,
    pub(crate) node_count: NodeCount,
    pub(crate) batch_size: BatchSize,
    pub(crate) capacity: Capacity,
    pub(crate) nodes: Vec<Node>,
    pub(crate) lanes: Vec<Lane>,
    pub(crate) detector: Detector,
    pub(crate) steps: u64,
    pub(crate) failed: Option<BuildFault>,
    ghost nodes_whole: { vec_len nodes ≡ node_count },
    ghost lanes_whole: { vec_len lanes ≡ node_count * node_count },
}

impl World {
    ghost use Rattle.dob_world.specs.declared.event.Event.TheVariants.{Expand, Own, Post, Take, Pass, Announce};
    ghost use Rattle.dob_world.specs.Worlds.{setting_by, HaveFallsIn};
    ghost use Rattle.dob_share.specs.declared.build_fault.BuildFault.TheVariants as fault;
    ghost use Rattle.dob_world.specs.Stops.{IsStop, IsForMemory};
    ghost use Rattle.dob_world.specs.Shown.{setting_of, state_of};
    ghost use Rattle.dob_world.specs.Standing.{IsSetting, IsStanding, StandsOrStopped};
    ghost use Rattle.dob_world.specs.Effects.{IsMade, IsEventDone, IsSkipped, IsStopped};
    ghost use Rattle.dob_world.specs.Lanes.{AreTwo};
    ghost use Rattle.dob_world.specs.Start.{IsWorldStart};
    ghost use Rattle.dob_world.specs.Results.{HasSettingFault};
    ghost use Rattle.dob_world.specs.Headline.{AreBeginnings, Headline};

    /// A world of `nodes` nodes before its first event, with batches of at most `batch` items and links with room for
    /// `capacity` batches.
    ///
    /// # Errors
    ///
    /// Tested in this order: `Nodes` if `nodes` isn't 1 to 16; `Sizes` if `batch` isn't 1 to 4096 or `capacity` not
    /// 1 to 1024; `Memory`.
    pub fn open(
        alloc: Global,
        family: Family,
        nodes: usize,
        batch: usize,
        capacity: usize,
    ) -> Result<World, BuildFault>
        ensures setting { IfOk result (λ world. setting_of world ≡ setting_by family nodes batch capacity) }
        ensures standing { IfOk result (λ world. IsStanding world × (world.failed ≡ None) × (world.steps ≡ 0)) }
        ensures opened { IfOk result (λ world. IsWorldStart (setting_of world) (state_of world)) }
        ensures fault { IfErr result (λ fault. HasSettingFault (setting_by family nodes batch capacity) fault) }
    {
        let Some(node_count) = NodeCount::new(nodes) else {
            return Err(BuildFault::Nodes);
        };
        let Some(batch_size) = BatchSize::new(batch) else {
            return Err(BuildFault::Sizes);
        };
        let Some(capacity) = Capacity::new(capacity) else {
            return Err(BuildFault::Sizes);
        };
        Ok(World::opened(alloc, family, node_count, batch_size, capacity)?)
    }

    // The world of that setting.
    fn opened(
        alloc: Global,
        family: Family,
        node_count: NodeCount,
        batch_size: BatchSize,
        capacity: Capacity,
    ) -> Result<World, Memory>
        requires { IsSetting (setting_by family node_count batch_size capacity) }
        ensures setting { IfOk result (λ world. setting_of world ≡ setting_by family node_count batch_size capacity) }
        ensures standing { IfOk result (λ world. IsStanding world × (world.failed ≡ None) × (world.steps ≡ 0)) }
        ensures opened { IfOk result (λ world. IsWorldStart (setting_of world) (state_of world)) }
    {
        let classes = Classes::open(alloc, family)?;
        let openings = opening(alloc, &classes, SegmentLength::longest())?;
        let nodes = open_nodes(alloc, &openings, family, node_count)?;
        let lanes = open_lanes(alloc, node_count, capacity)?;
        let detector = Detector::open(alloc, node_count)?;
        Ok(World {
            alloc,
            classes,
            node_count,
            batch_size,
            capacity,
            nodes,
            lanes,
            detector,
            steps: 0,
            failed: None,
        })
    }

    /// Makes the event happen, or skips it if it can't.
    ///
    /// # Errors
    ///
    /// `Stopped`, if the node that makes a step at the event has stopped; then, and at each further step, the same, which
    /// changes nothing. A world that has stopped isn't one whose end is announced. Counts, colours and the token are as before the
    /// event, and so are all lists, but where an item of a batch goes too deep: then only the items before it are applied, and the
    /// batch waits no more. In each case what was applied is a beginning of what was sent, and each cell is what is known.
    /// In a set of fewer than 65,535 classes it stops for lack of memory alone.
    pub fn step(&mut self, event: Event) -> Result<Step, BuildFault>
        requires few { self.old.steps < 2 ^ 40 }
        requires kept { StandsOrStopped self.old }
        ensures done { result ≡ Ok Step.Done → IsMade event self.old self.new × (self.new.steps ≡ self.old.steps + 1) }
        ensures skipped { result ≡ Ok Step.Skipped → IsSkipped event self.old self.new }
        ensures setting { setting_of self.new ≡ setting_of self.old }
        ensures stopped { IfErr result (λ fault. IsStop fault × (self.new.failed ≡ Some fault)) }
        ensures ring { OnErr result ((self.new.detector ≡ self.old.detector) × (self.new.steps ≡ self.old.steps)) }
        ensures shown { IfErr result (λ fault. IsForMemory fault → (state_of self.new).world ≡ (state_of self.old).world) }
        ensures named { self.old.failed ≡ None → IfErr result (λ fault. IsStopped event fault self.old self.new) }
        ensures stays { IfSome self.old.failed (λ fault. (result ≡ Err fault) × (self.new ≡ self.old)) }
        ensures unannounced { OnErr result (self.new.detector.announced ≡ false) }
        ensures memory { self.old.failed ≡ None → classes_of (setting_of self.old).family < 65535 → IfErr result IsForMemory }
        ensures falls { OnOk result (HaveFallsIn (setting_of self.new) (state_of self.new).world.nodes) }
        ensures silent { self.old.detector.announced ≡ true → result ≡ Ok Step.Skipped }
        ensures headline { OnOk result (Headline (setting_of self.new) (state_of self.new)) }
        ensures beginnings { AreBeginnings (setting_of self.new) (state_of self.new).world }
        ensures going { OnOk result ((self.new.failed ≡ None) × IsStanding self.new) }
        ensures kept { StandsOrStopped self.new }
    {
        if let Some(fault) = self.failed {
            return Err(fault);
        }
        match self.make(event) {
            Ok(true) => {
                self.steps += 1;
                Ok(Step::Done)
            }
            Ok(false) => Ok(Step::Skipped),
            Err(fault) => {
                self.failed = Some(fault);
                Err(fault)
            }
        }
    }

    // Makes the event happen, which isn't counted yet. False if it can't.
    fn make(&mut self, event: Event) -> Result<bool, BuildFault>
        requires standing { IsStanding self.old }
        requires few { self.old.steps < 2 ^ 40 }
        ensures done { result ≡ Ok true → IsEventDone event self.old self.new }
        ensures skipped { result ≡ Ok false → IsSkipped event self.old self.new }
        ensures stopped { IfErr result (λ fault. IsStopped event fault self.old self.new) }
    {
        match event {
            Event::Expand(node) => self.expand(node),
            Event::Own(node) => self.own(node),
            Event::Post { from, to } => self.post(from, to),
            Event::Take { from, to } => self.take(from, to),
            Event::Pass(node) => Ok(self.pass(node)),
            Event::Announce => Ok(self.announce()),
        }
    }

    // Whether the world has a node of that number.
    fn has(&self, node: usize) -> bool
        ensures { IsTrue result ↔ (node < self.now.node_count) }
    {
        node < self.node_count.get()
    }

    // The place of the lane from a node to a node.
    pub(crate) fn lane_place(&self, from: usize, to: usize) -> usize
        requires from { from < self.now.node_count }
        requires to { to < self.now.node_count }
        ensures { result ≡ from * self.now.node_count + to }
    {
        from * self.node_count.get() + to
    }

    // The place of the lane from a node to another one. None if these aren't two nodes of the world.
    fn lane_between(&self, from: usize, to: usize) -> Option<usize>
        ensures none { IsNone result → ¬ AreTwo self.now.node_count from to }
        ensures two { IfSome result (λ _. AreTwo self.now.node_count from to) }
        ensures place { IfSome result (λ place. place ≡ from * self.now.node_count + to) }
    {
        if !self.has(from) || !self.has(to) || from == to {
            return None;
        }
        Some(self.lane_place(from, to))
    }

    // The next settlement of a node becomes items. False if there is none.
    fn expand(&mut self, node: usize) -> Result<bool, BuildFault>
        requires standing { IsStanding self.old }
        requires few { self.old.steps < 2 ^ 40 }
        ensures done { result ≡ Ok true → IsEventDone (Expand node) self.old self.new }
        ensures skipped { result ≡ Ok false → IsSkipped (Expand node) self.old self.new }
        ensures stopped { IfErr result (λ fault. IsStopped (Expand node) fault self.old self.new) }
    {
        if !self.has(node) {
            return Ok(false);
        }
        match self.nodes[node].expand(&self.classes) {
            Ok(happened) => Ok(happened),
            Err(cause) => Err(BuildFault::Stopped { node, cause }),
        }
    }

    // The first own item of a node is applied. False if there is none.
    fn own(&mut self, node: usize) -> Result<bool, BuildFault>
        requires standing { IsStanding self.old }
        requires few { self.old.steps < 2 ^ 40 }
        ensures done { result ≡ Ok true → IsEventDone (Own node) self.old self.new }
        ensures skipped { result ≡ Ok false → IsSkipped (Own node) self.old self.new }
        ensures stopped { IfErr result (λ fault. IsStopped (Own node) fault self.old self.new) }
    {
        if !self.has(node) {
            return Ok(false);
        }
        let place = self.lane_place(node, node);
        match apply_own(&mut self.nodes[node], &mut self.lanes[place]) {
            Ok(happened) => Ok(happened),
            Err(cause) => Err(BuildFault::Stopped { node, cause }),
        }
    }

    // A node posts a batch to another one. False if it has nothing to send, or the link has no room.
    fn post(&mut self, from: usize, to: usize) -> Result<bool, BuildFault>
        requires standing { IsStanding self.old }
        requires few { self.old.steps < 2 ^ 40 }
        ensures done { result ≡ Ok true → IsEventDone (Post from to) self.old self.new }
        ensures skipped { result ≡ Ok false → IsSkipped (Post from to) self.old self.new }
        ensures stopped { IfErr result (λ fault. IsStopped (Post from to) fault self.old self.new) }
    {
        let Some(place) = self.lane_between(from, to) else {
            return Ok(false);
        };
        match post(
            &mut self.nodes[from],
            &mut self.lanes[place],
            to,
            self.batch_size,
        ) {
            Ok(true) => {
                self.detector.count_post(from, to);
                Ok(true)
            }
            Ok(false) => Ok(false),
            Err(cause) => Err(BuildFault::Stopped { node: from, cause }),
        }
    }

    // A node takes a batch of another one. False if none waits.
    fn take(&mut self, from: usize, to: usize) -> Result<bool, BuildFault>
        requires standing { IsStanding self.old }
        requires few { self.old.steps < 2 ^ 40 }
        ensures done { result ≡ Ok true → IsEventDone (Take from to) self.old self.new }
        ensures skipped { result ≡ Ok false → IsSkipped (Take from to) self.old self.new }
        ensures stopped { IfErr result (λ fault. IsStopped (Take from to) fault self.old self.new) }
    {
        let Some(place) = self.lane_between(from, to) else {
            return Ok(false);
        };
        match receive(&mut self.nodes[to], &mut self.lanes[place]) {
            Ok(true) => {
                self.detector.count_take(from, to);
                Ok(true)
            }
            Ok(false) => Ok(false),
            Err(cause) => Err(BuildFault::Stopped { node: to, cause }),
        }
    }

    // An idle node passes the token. False if it hasn't got it or isn't idle, or where the end is or may be announced.
    fn pass(&mut self, node: usize) -> bool
        requires standing { IsStanding self.old }
        requires few { self.old.steps < 2 ^ 40 }
        ensures done { result ≡ true → IsEventDone (Pass node) self.old self.new }
        ensures skipped { result ≡ false → IsSkipped (Pass node) self.old self.new }
    {
        if !self.has(node) || node != self.detector.token.at || self.detector.announced {
            return false;
        }
        if !self.nodes[node].is_idle() {
            return false;
        }
        if node == 0 && self.detector.may_end() {
            return false;
        }
        self.detector.pass_token();
        true
    }

    // Node 0 announces the end. False if the end may not be announced or is.
    fn announce(&mut self) -> bool
        requires standing { IsStanding self.old }
        requires few { self.old.steps < 2 ^ 40 }
        ensures done { result ≡ true → IsEventDone Announce self.old self.new }
        ensures skipped { result ≡ false → IsSkipped Announce self.old self.new }
    {
        if self.detector.announced || !self.detector.may_end() {
            return false;
        }
        if !self.nodes[0].is_idle() {
            return false;
        }
        self.detector.announce_end();
        true
    }
}
