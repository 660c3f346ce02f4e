// The rounds of a runner's turn: over all nodes, and over what there is to expand and to apply.
ghost use Rattle.std.specs.Prelude.{◌≡◌, ◌↔◌, ◌<◌, ◌≤◌, IsTrue, None};
ghost use Rattle.dob_runner.specs.Runners.{StepsBy};
ghost use Rattle.dob_runner.specs.TurnRounds.{HoldsUp, IsHeldUp, ExpandsSome, AppliesAllOwn, SendsAll};

use crate::runner::Runner;
use crate::turn_steps::fail_for;
use dob_classes::Classes;
use dob_node::Cause;
use dob_update::BatchSize;
use std::sync::Wait;

impl Runner {
    // Expands settlements up to that level until as many items are made as a turn is to make that took a batch or didn't, or the next
    // one is above it, or nothing is left to expand; none if a batch can't be sent and another whole one is left for the same node.
    // Whether any was expanded.
    pub(crate) fn expand_all(
        &mut self,
        classes: &Classes,
        limit: u16,
        took: bool,
    ) -> Result<bool, Cause>
        requires unfailed { self.old.failed ≡ None }
        requires family { classes.now.family ≡ self.old.family }
        ensures { StepsBy (ExpandsSome limit) self.old self.new result }
    {
        if self.is_held_up() {
            return Ok(false);
        }
        if self.is_above(limit) {
            return Ok(false);
        }
        let enough = self
            .left()
            .saturating_add(turn_items(self.batch_size, took));
        let any = self.expand_one(classes)?;
        if !any {
            return Ok(false);
        }
        for _ in 0..u64::MAX {
            if self.left() >= enough {
                return Ok(true);
            }
            if self.is_above(limit) {
                return Ok(true);
            }
            let more = self.expand_one(classes)?;
            if !more {
                return Ok(true);
            }
        }
        Ok(true)
    }

    // Applies all own items. Whether there was any.
    pub(crate) fn apply_all(&mut self) -> Result<bool, Cause>
        requires { self.old.failed ≡ None }
        ensures { StepsBy AppliesAllOwn self.old self.new result }
    {
        let count = self.node.left_for_itself();
        match self.node.apply_every_own() {
            Ok(()) => Ok(count > 0),
            Err(why) => Err(fail_for(&mut self.failed, &mut self.endpoint, why)),
        }
    }

    // Sends at most one batch to each node, also one that isn't whole where small ones are asked for. Whether any was sent.
    pub(crate) fn send_all<R: Wait>(&mut self, rt: &R, small: bool) -> Result<bool, Cause>
        requires { self.old.failed ≡ None }
        ensures { StepsBy (SendsAll small) self.old self.new result }
    {
        let mut sent = false;
        for to in 0..self.endpoint.seat.nodes.get() {
            sent |= self.send_to(rt, to, small)?;
        }
        Ok(sent)
    }

    // Whether a batch couldn't be sent, and another whole one is left to send to the same node.
    fn is_held_up(&self) -> bool
        requires { self.now.failed ≡ None }
        ensures { IsTrue result ↔ IsHeldUp self.now }
    {
        for to in 0..self.endpoint.seat.nodes.get() {
            if self.is_held_up_by(to) {
                return true;
            }
        }
        false
    }

    // Whether a batch for the node `to` couldn't be sent, and another whole one is left for it.
    fn is_held_up_by(&self, to: usize) -> bool
        requires unfailed { self.now.failed ≡ None }
        requires node { to < self.now.endpoint.seat.nodes }
        ensures { IsTrue result ↔ HoldsUp self.now to }
    {
        if !self.endpoint.outlets[to].is_full() {
            return false;
        }
        self.node.left_for(to) >= self.batch_size.get()
    }

    // How many items are left to apply and to send.
    fn left(&self) -> usize
        requires { self.now.failed ≡ None }
    {
        let mut left = self.node.left_for_itself();
        for to in 0..self.endpoint.seat.nodes.get() {
            left = left.saturating_add(self.node.left_for(to));
        }
        left
    }
}

// How many items a turn is to make: as many as a batch holds; a quarter of that if it took a batch, so that the next one is soon taken
// and the inboxes of the crew stay short.
fn turn_items(size: BatchSize, took: bool) -> usize
    ensures { result ≤ size }
{
    if took { size.get() / 4 } else { size.get() }
}
