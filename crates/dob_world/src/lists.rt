// What a world lends, also after a stop: what went over its links, and the histories of its nodes.
ghost use Rattle.std.specs.Prelude.{◌≡◌, ◌<◌, length, Some, slice_get};
ghost use Rattle.dob_world.specs.Shown.{state_of};

use crate::world::World;
use dob_node::Node;
use dob_share::{Item, Settlement};
use std::marker::Model;

/// The history of a node, lent by its world.
#[derive(Drop)]
pub struct History<'a> {
    node: &'a Node,
}

impl<'a> Model for History<'a> {
    ghost use Rattle.std.specs.Prelude.{List};
    ghost use Rattle.dob_share.specs.declared.news.Settlement.{Settlement};

    ghost Value = { List Settlement };

    ghost view = { λ h. h.node.now.history.settlements };
}

impl World {
    /// How many events were done.
    pub fn steps(&self) -> u64
        ensures { result ≡ self.now.steps }
    {
        self.steps
    }

    /// Whether the end is announced.
    pub fn announced(&self) -> bool
        ensures { result ≡ (state_of self.now).ring.announced }
    {
        self.detector.announced
    }

    /// The items that the node `from` has sent to the node `to`, in order.
    pub fn sent(&self, from: usize, to: usize) -> &[Item]
        requires from { from < self.now.node_count }
        requires to { to < self.now.node_count }
        ensures { result.now ≡ (state_of self.now).world.sent from to }
    {
        &self.lanes[self.lane_place(from, to)].sent
    }

    /// The items of the node `from` that the node `to` has applied, in order.
    pub fn applied(&self, from: usize, to: usize) -> &[Item]
        requires from { from < self.now.node_count }
        requires to { to < self.now.node_count }
        ensures { result.now ≡ (state_of self.now).world.nodes.applied from to }
    {
        &self.lanes[self.lane_place(from, to)].applied
    }

    /// The settlements of the node, in order.
    pub fn history(&self, node: usize) -> History<'_>
        requires node { node < self.now.node_count }
        ensures { result ≡ (state_of self.now).world.nodes.history node }
    {
        History {
            node: &self.nodes[node],
        }
    }
}

impl History<'_> {
    /// How many settlements there are.
    pub fn count(&self) -> u64
        ensures { result ≡ length self.now }
    {
        self.node.settled()
    }

    /// The settlement of that number.
    pub fn get(&self, number: u64) -> Settlement
        requires { number < length self.now }
        ensures { slice_get self.now number ≡ Some result }
    {
        self.node.settlement(number)
    }
}
