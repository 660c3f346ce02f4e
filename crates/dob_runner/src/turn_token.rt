// What a runner does with the token where a turn had no work: if it is idle and has it, it passes it or announces the end.
ghost use Rattle.std.specs.Prelude.{◌≡◌, ◌↔◌, IsTrue, None};
ghost use Rattle.dob_runner.specs.Runners.{GoesRound, IsAtRest};
ghost use Rattle.dob_runner.specs.Turns.{SeeksToken};

use crate::runner::Runner;

impl Runner {
    // Whether it has nothing to expand, to apply or to send, and no batch in a slot.
    fn is_idle(&self) -> bool
        ensures { IsTrue result ↔ IsAtRest self.now }
    {
        if !self.node.is_idle() {
            return false;
        }
        self.endpoint.has_empty_slots()
    }

    // Moves the token where the runner is idle and its node has it, and says whether it did.
    pub(crate) fn seek_token(&mut self) -> bool
        requires { self.old.failed ≡ None }
        ensures goes { GoesRound self.old self.new }
        ensures seeks { SeeksToken self.old self.new result }
    {
        if !self.is_idle() {
            return false;
        }
        self.endpoint.move_token()
    }
}
