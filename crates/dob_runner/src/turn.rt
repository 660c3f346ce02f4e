// A turn of a runner.
ghost use Rattle.std.specs.Prelude.{◌≡◌, ◌≢◌, ◌↔◌, ◌-◌, ◌<◌, IsTrue, Err, None, Some, IfErr, MatchOption, MatchResult, length, true, false};
ghost use Rattle.dob_board.specs.declared.halt.Halt.TheVariants.{Running};
ghost use Rattle.dob_board.specs.Seats.{MovesNothing};
ghost use Rattle.dob_share.specs.declared.cause.Cause.TheVariants.{Held};
ghost use Rattle.dob_runner.specs.Runners.{StepsBy, GoesRound, HasFailed, IsHeldBack, IsTurnedAway, IsNew, GateIsAsked, IsReasonFor, says_no};
ghost use Rattle.dob_node.specs.NodeViews.{NodeView};
ghost use Rattle.dob_runner.specs.TurnRounds.{IsLevel, IsAbove, HearsLimit, SendsSmall, Works};
ghost use Rattle.dob_runner.specs.Turns.{HasTurned, HasSeen, EndsTurn, GateIsTold};

use crate::gate::Gate;
use crate::pace::Pace;
use crate::pause::Pause;
use crate::runner::Runner;
use crate::turn_steps::fail_for;
use dob_board::Halt;
use dob_classes::Classes;
use dob_endpoint::Endpoint;
use dob_node::{Cause, Node};
use dob_pieces::Family;
use dob_update::BatchSize;
use std::sync::Wait;

impl Runner {
    /// The runner of a node that was opened for the family and has made no step, and of the endpoint of its seat, over which
    /// nothing has gone. It cuts batches of at most that size.
    pub fn new(node: Node, endpoint: Endpoint, family: Family, batch_size: BatchSize) -> Runner
        requires { IsNew family node endpoint }
        ensures node { result.node ≡ node }
        ensures endpoint { result.endpoint ≡ endpoint }
        ensures family { result.family ≡ family }
        ensures batch_size { result.batch_size ≡ batch_size }
        ensures unfailed { result.failed ≡ None }
        ensures pace { result.pace ≡ None }
    {
        Runner {
            node,
            endpoint,
            family,
            batch_size,
            failed: None,
            pace: None,
            pause: Pause::new(),
        }
    }

    /// From now on the runner waits for the slower ones of its crew: it expands nothing on a level that the pace doesn't allow.
    pub fn keep_pace(&mut self, pace: Pace)
        ensures node { self.new.node ≡ self.old.node }
        ensures endpoint { self.new.endpoint ≡ self.old.endpoint }
        ensures family { self.new.family ≡ self.old.family }
        ensures batch_size { self.new.batch_size ≡ self.old.batch_size }
        ensures failed { self.new.failed ≡ self.old.failed }
        ensures pace { self.new.pace ≡ Some pace }
    {
        self.pace = Some(pace);
    }

    /// Whether the runner's seat has seen that the run ended or failed.
    pub fn stopped(&self) -> bool
        ensures { IsTrue result ↔ (self.now.endpoint.seat.stand.halt ≢ Running) }
    {
        self.endpoint.seat.stand.halt != Halt::Running
    }

    /// Why the runner has failed, if it has.
    pub fn failure(&self) -> Option<Cause>
        ensures { result ≡ self.now.failed }
    {
        self.failed
    }

    /// Gives up for a cause that isn't the node's own: the board is told, and the runner stores the cause. Its node is as it
    /// was.
    pub fn abandon(&mut self, why: Cause)
        requires { self.old.failed ≡ None }
        ensures failed { HasFailed self.old self.new why }
        ensures still { MovesNothing self.old.endpoint.seat self.new.endpoint.seat }
        ensures same { IsHeldBack self.old self.new }
    {
        fail_for(&mut self.failed, &mut self.endpoint, why);
    }

    /// One turn: a runner that the gate lets pass and whose run goes on does a turn's work for its node, and reports it to the gate,
    /// and if there was none it looks for the token, or pauses. The answer is the halt that its seat knows.
    ///
    /// # Errors
    ///
    /// After which the run has failed, if it hadn't ended or failed before, and before which the runner moved no token: `Held`
    /// if and only if the gate refuses, and then the runner has done nothing: its node and what went over its links are as they were;
    /// else the cause of the node: an item that can't be applied, too many batches, or lack of memory.
    pub fn turn<R: Wait, G: Gate>(
        &mut self,
        rt: &R,
        classes: &Classes,
        gate: &G,
    ) -> Result<Halt, Cause>
        requires running { self.old.endpoint.seat.stand.halt ≡ Running }
        requires family { classes.now.family ≡ self.old.family }
        ensures turned { MatchResult result (HasTurned self.old self.new) (HasFailed self.old self.new) }
        ensures asked { GateIsAsked (G.says gate.now) self.old.endpoint.seat.node result }
        ensures reason { IfErr result (IsReasonFor (says_no (G.says gate.now)) self.new) }
        ensures held { result ≡ Err Held → IsHeldBack self.old self.new }
        ensures still { IfErr result (λ _. MovesNothing self.old.endpoint.seat self.new.endpoint.seat) }
        ensures told { GateIsTold (G.told gate.now) self.old self.new }
    {
        if !self.enter(gate) {
            return Err(Cause::Held);
        }
        let halt = self.look();
        let Halt::Running = halt else {
            return Ok(halt);
        };
        let did = self.work_and_tell(rt, classes, gate)?;
        self.end_turn(rt, did);
        Ok(self.endpoint.seat.stand.halt)
    }

    // Asks the gate whether the runner may go on. One that may not gives up, and has done nothing else.
    pub(crate) fn enter<G: Gate>(&mut self, gate: &G) -> bool
        requires { self.old.failed ≡ None }
        ensures asked { G.says gate.now self.old.endpoint.seat.node result }
        ensures on { result ≡ true → self.new ≡ self.old }
        ensures away { result ≡ false → IsTurnedAway self.old self.new }
    {
        let may = gate.enter(self.endpoint.seat.node);
        if !may {
            self.abandon(Cause::Held);
        }
        may
    }

    // Looks whether the run goes on.
    fn look(&mut self) -> Halt
        requires { self.old.failed ≡ None }
        ensures goes { GoesRound self.old self.new }
        ensures seen { HasSeen self.old self.new }
        ensures halt { result ≡ self.new.endpoint.seat.stand.halt }
    {
        self.endpoint.look_at_halt()
    }

    // What is left of a turn: one that did nothing looks for the token, and pauses where the runner isn't idle or hasn't got it. It
    // doesn't sleep while a batch lies in a slot.
    fn end_turn<R: Wait>(&mut self, rt: &R, did: bool)
        requires { self.old.failed ≡ None }
        ensures goes { GoesRound self.old self.new }
        ensures ends { EndsTurn did self.old self.new }
    {
        if did {
            self.pause.reset();
            return;
        }
        let found = self.seek_token();
        self.pause.follow(rt, found, &self.endpoint);
    }

    // A turn's work; then the gate learns how many settlements it has expanded, also if it has failed.
    pub(crate) fn work_and_tell<R: Wait, G: Gate>(
        &mut self,
        rt: &R,
        classes: &Classes,
        gate: &G,
    ) -> Result<bool, Cause>
        requires unfailed { self.old.failed ≡ None }
        requires family { classes.now.family ≡ self.old.family }
        ensures works { StepsBy Works self.old self.new result }
        ensures told { G.told gate.now self.old.endpoint.seat.node (self.new.node.expanded - self.old.node.expanded) }
    {
        let before = self.node.expanded();
        let did = self.work(rt, classes);
        let expanded = self.node.expanded().saturating_sub(before);
        gate.worked(self.endpoint.seat.node, expanded);
        did
    }

    // A turn's work: at most one batch is applied; settlements are expanded until as many items are made as
    // a batch holds, or a quarter of that if one was applied, none on a level that the pace doesn't allow, and the own items are
    // applied; and at most one batch is sent to each node. Whether anything was done.
    pub(crate) fn work<R: Wait>(&mut self, rt: &R, classes: &Classes) -> Result<bool, Cause>
        requires unfailed { self.old.failed ≡ None }
        requires family { classes.now.family ≡ self.old.family }
        ensures { StepsBy Works self.old self.new result }
    {
        let took = self.take_one(rt)?;
        let level = self.level();
        let limit = self.exchange_levels(level);
        let expanded = self.expand_all(classes, limit, took)?;
        let applied = self.apply_all()?;
        let small = self.sends_small(took, level, limit);
        let sent = self.send_all(rt, small)?;
        Ok(took | expanded | applied | sent)
    }

    // On which level the next settlement is, if one is left to expand.
    fn level(&self) -> Option<u16>
        requires { self.now.failed ≡ None }
        ensures { IsLevel self.now.node result }
    {
        self.node.level()
    }

    // Says that its own level is that one, and gives the highest one that it may expand now.
    fn exchange_levels(&mut self, level: Option<u16>) -> u16
        requires { self.old.failed ≡ None }
        ensures { HearsLimit self.old self.new result }
    {
        match &mut self.pace {
            Some(pace) => pace.exchange_levels(level),
            None => u16::MAX,
        }
    }

    // Whether batches that aren't whole are sent too: where nothing was taken and nothing is left to expand; where what is left is
    // above the limit; and where it is above the level that the node was on.
    fn sends_small(&self, took: bool, was: Option<u16>, limit: u16) -> bool
        requires unfailed { self.now.failed ≡ None }
        requires was { (node : NodeView) × IsLevel node was }
        ensures { (node : NodeView) → IsLevel node was → IsTrue result ↔ SendsSmall took limit node self.now.node }
    {
        let Some(now) = self.level() else {
            return !took;
        };
        if now > limit {
            return true;
        }
        has_risen(was, now)
    }

    // Whether the next settlement is above that level.
    pub(crate) fn is_above(&self, limit: u16) -> bool
        requires { self.now.failed ≡ None }
        ensures { IsTrue result ↔ IsAbove limit self.now.node }
    {
        match self.level() {
            Some(level) => level > limit,
            None => false,
        }
    }
}

// Whether the level is above another, if there is one.
fn has_risen(was: Option<u16>, now: u16) -> bool
    ensures { MatchOption was (result ≡ false) (λ before. IsTrue result ↔ (before < now)) }
{
    match was {
        Some(before) => now > before,
        None => false,
    }
}
