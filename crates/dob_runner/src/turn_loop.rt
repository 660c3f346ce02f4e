// Turns of a runner, one after another.
ghost use Rattle.std.specs.Prelude.{◌≡◌, ◌≢◌, true, Err, None, IfErr, MatchResult};
ghost use Rattle.dob_board.specs.declared.halt.Halt.TheVariants.{Running};
ghost use Rattle.dob_board.specs.Seats.{MovesNothing};
ghost use Rattle.dob_share.specs.declared.cause.Cause.TheVariants.{Held};
ghost use Rattle.dob_runner.specs.Runners.{HasFailed, KeepsRunner, IsHeldBack, GateIsAsked, IsReasonFor, IsReasoned, says_no};
ghost use Rattle.dob_runner.specs.TurnRounds.{AddsFew, Works};
ghost use Rattle.dob_runner.specs.Turns.{GateIsTold};

use crate::gate::Gate;
use crate::runner::Runner;
use dob_classes::Classes;
use dob_node::Cause;
use std::sync::Wait;

/// How long a runner makes turns: N turns, without the halt word and the token, or until its seat has seen that the run ended
/// or failed.
#[derive(Drop)]
pub enum Until {
    Turns(u64),
    Halted,
}

impl Runner {
    ghost use Rattle.dob_runner.specs.TurnLoop.{Suits, EndsBy};

    /// Makes turns for so long, or ends at the first that fails. Its promises hold if it returns.
    pub fn go_until<R: Wait, G: Gate>(&mut self, rt: &R, classes: &Classes, gate: &G, until: &Until)
        requires { Suits classes.now.family self.old }
        ensures { EndsBy (G.says gate.now) until.now self.old self.new }
    {
        match until {
            Until::Turns(turns) => self.go(rt, classes, gate, *turns),
            Until::Halted => self.make_turns(rt, classes, gate),
        }
    }

    // Makes whole turns until its seat has seen that the run ended or failed: the gate let it go on at least once, where the run
    // went on and it didn't fail. Its promises hold if it returns.
    fn make_turns<R: Wait, G: Gate>(&mut self, rt: &R, classes: &Classes, gate: &G)
        requires unfailed { self.old.failed ≡ None }
        requires family { classes.now.family ≡ self.old.family }
        ensures keeps { KeepsRunner self.old self.new }
        ensures stopped { self.new.endpoint.seat.stand.halt ≢ Running }
        ensures let_on { self.old.endpoint.seat.stand.halt ≡ Running → self.new.failed ≡ None → G.says gate.now self.new.endpoint.seat.node true }
        ensures reasoned { IsReasoned (says_no (G.says gate.now)) self.new }
    {
        for _ in rt.forever() {
            if self.stopped() {
                return;
            }
            let _ = self.turn(rt, classes, gate);
        }
        unreachable!()
    }

    // Makes `turns` turns of work for its node, or ends at the first that fails. If none did, at most one batch a turn went over
    // each link. Its promises hold if it returns.
    fn go<R: Wait, G: Gate>(&mut self, rt: &R, classes: &Classes, gate: &G, turns: u64)
        requires unfailed { self.old.failed ≡ None }
        requires family { classes.now.family ≡ self.old.family }
        ensures keeps { KeepsRunner self.old self.new }
        ensures few { self.new.failed ≡ None → AddsFew turns self.old.endpoint self.new.endpoint }
        ensures reasoned { IsReasoned (says_no (G.says gate.now)) self.new }
    {
        for _ in 0..turns {
            let Ok(_) = self.turn_alone(rt, classes, gate) else {
                return;
            };
        }
    }

    // One turn, without the halt word and the token: a runner that the gate lets pass does a turn's work for its node, of which the
    // gate is told. Whether there was any.
    fn turn_alone<R: Wait, G: Gate>(
        &mut self,
        rt: &R,
        classes: &Classes,
        gate: &G,
    ) -> Result<bool, Cause>
        requires unfailed { self.old.failed ≡ None }
        requires family { classes.now.family ≡ self.old.family }
        ensures works { MatchResult result (Works self.old self.new) (HasFailed self.old self.new) }
        ensures asked { GateIsAsked (G.says gate.now) self.old.endpoint.seat.node result }
        ensures reason { IfErr result (IsReasonFor (says_no (G.says gate.now)) self.new) }
        ensures held { result ≡ Err Held → IsHeldBack self.old self.new }
        ensures still { IfErr result (λ _. MovesNothing self.old.endpoint.seat self.new.endpoint.seat) }
        ensures told { GateIsTold (G.told gate.now) self.old self.new }
    {
        if !self.enter(gate) {
            return Err(Cause::Held);
        }
        self.work_and_tell(rt, classes, gate)
    }
}
