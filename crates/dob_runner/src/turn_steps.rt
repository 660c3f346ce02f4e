// What a runner does for its node: it takes batches, expands settlements, applies items and sends batches.
//
// A link is asked and moved here. The endpoint is borrowed before a link of it changes, so that what its type says of the counts is asked of it alone.
ghost use Rattle.std.specs.Prelude.{◌≡◌, ◌≢◌, ◌↔◌, ◌<◌, IsTrue, Err, None};
ghost use Rattle.dob_share.specs.declared.cause.Cause.TheVariants.{Memory};
ghost use Rattle.dob_runner.specs.Runners.{FailsFor, StepsBy};
ghost use Rattle.dob_runner.specs.TurnRounds.{RunnerTakesBatch, LeavesBatch, ExpandsOne, HasToSend, FillsFor, SendsTo};

use crate::batches::sender_for;
use crate::runner::Runner;
use dob_classes::Classes;
use dob_endpoint::Endpoint;
use dob_node::Cause;
use std::sync::Wait;

// Notes why a runner has failed, and says so on the board. The cause.
pub(crate) fn fail_for(failed: &mut Option<Cause>, endpoint: &mut Endpoint, why: Cause) -> Cause
    ensures fails { FailsFor endpoint.old endpoint.new failed.new why }
    ensures given { result ≡ why }
{
    *failed = Some(why);
    endpoint.fail();
    why
}

impl Runner {
    // Takes the batch in the taking slot, else the next of the inbox, if it is one for the node that the board knows of, and
    // applies its items. False if there is none. A batch that isn't for the node stays in the slot; for any other one the
    // node makes room before it is counted.
    //
    // # Errors
    //
    // `Memory` for that room, which leaves the batch in the slot, uncounted, and the node as it was; else the cause of
    // an item that can't be applied.
    pub(crate) fn take_one<R: Wait>(&mut self, rt: &R) -> Result<bool, Cause>
        requires { self.old.failed ≡ None }
        ensures step { StepsBy RunnerTakesBatch self.old self.new result }
        ensures refused { result ≡ Err Memory → LeavesBatch self.old self.new }
    {
        let endpoint = &mut self.endpoint;
        endpoint.inlet.receive(rt);
        let endpoint = &self.endpoint;
        let seat = &endpoint.seat;
        let inlet = &endpoint.inlet;
        let Some(from) = sender_for(inlet, self.family, seat.nodes, seat.node) else {
            return Ok(false);
        };
        match self.node.reserve(inlet.held_items()) {
            Ok(()) => {}
            Err(refused) => return Err(fail_for(&mut self.failed, &mut self.endpoint, refused)),
        }
        let Some(batch) = self.endpoint.accept(from) else {
            return Ok(false);
        };
        match self.node.apply_batch(&batch) {
            Ok(()) => Ok(true),
            Err(why) => Err(fail_for(&mut self.failed, &mut self.endpoint, why)),
        }
    }

    // Expands the next settlement of the node's history. False if there is none.
    pub(crate) fn expand_one(&mut self, classes: &Classes) -> Result<bool, Cause>
        requires unfailed { self.old.failed ≡ None }
        requires family { classes.now.family ≡ self.old.family }
        ensures { StepsBy ExpandsOne self.old self.new result }
    {
        match self.node.expand(classes) {
            Ok(expanded) => Ok(expanded),
            Err(why) => Err(fail_for(&mut self.failed, &mut self.endpoint, why)),
        }
    }

    // Whether a whole batch is left to send to the node `to`, or anything where small ones are asked for.
    fn has_to_send(&self, to: usize, small: bool) -> bool
        requires unfailed { self.now.failed ≡ None }
        requires node { to < self.now.endpoint.seat.nodes }
        ensures { IsTrue result ↔ HasToSend self.now to small }
    {
        let left = self.node.left_for(to);
        if left == 0 {
            return false;
        }
        if small {
            return true;
        }
        left >= self.batch_size.get()
    }

    // Cuts a batch for the node `to`, another one, if none lies in the slot for it and a whole one is left to send, or anything
    // where small ones are asked for; counts it on the board and puts it into the slot. It says whether it did.
    fn cut_for(&mut self, to: usize, small: bool) -> Result<bool, Cause>
        requires unfailed { self.old.failed ≡ None }
        requires node { to < self.old.endpoint.seat.nodes }
        requires other { to ≢ self.old.endpoint.seat.node }
        ensures { StepsBy (FillsFor to small) self.old self.new result }
    {
        if self.endpoint.outlets[to].is_full() {
            return Ok(false);
        }
        if !self.has_to_send(to, small) {
            return Ok(false);
        }
        let cut = match self.node.cut_for(to, self.batch_size) {
            Ok(cut) => cut,
            Err(why) => return Err(fail_for(&mut self.failed, &mut self.endpoint, why)),
        };
        let Some(batch) = cut else {
            return Ok(false);
        };
        self.endpoint.post(to, batch);
        Ok(true)
    }

    // Offers a batch for the node `to`, if that is another one, to its inbox: the one in the slot or a new one. Whether it
    // was sent.
    pub(crate) fn send_to<R: Wait>(&mut self, rt: &R, to: usize, small: bool) -> Result<bool, Cause>
        requires unfailed { self.old.failed ≡ None }
        requires node { to < self.old.endpoint.seat.nodes }
        ensures { StepsBy (SendsTo to small) self.old self.new result }
    {
        if to == self.endpoint.seat.node {
            return Ok(false);
        }
        self.cut_for(to, small)?;
        if !self.endpoint.outlets[to].is_full() {
            return Ok(false);
        }
        let endpoint = &mut self.endpoint;
        let outlet = &mut endpoint.outlets[to];
        outlet.offer(rt);
        Ok(!outlet.is_full())
    }
}
