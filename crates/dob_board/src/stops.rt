// How a seat finds out that the run ended or failed, and says so.
ghost use Rattle.std.specs.Prelude.{◌≡◌, ◌≢◌, true};
ghost use Rattle.dob_board.specs.declared.halt.Halt.TheVariants.{Running, Ended};
ghost use Rattle.dob_board.specs.Seats.{IsSameSeat, MayEnd, FindsHalt, KnewOwnFailure, KnewEnd, ObservesHalt, TellsHalt, FailsAfter, HasAnnounced};

use crate::rule::{Announces, Fails, Halts};
use crate::words::{ENDED, FAILED, HALT, RUNNING, halt_after, halt_of};
use crate::{Halt, NodeSeat};

impl NodeSeat {
    /// Whether the run goes on. Once a seat found that it doesn't, it finds the same for ever. It finds a failure of its own
    /// node only after it said so itself, an end only while it is white, and as node 0 an end only after it announced it.
    pub fn halted(&mut self) -> Halt
        ensures found { FindsHalt self.old self.new result }
        ensures same { IsSameSeat self.old self.new }
        ensures observed { ObservesHalt self.old self.new result }
        ensures told { TellsHalt self.new result }
        ensures own { KnewOwnFailure self.old result }
        ensures unannounced { KnewEnd self.old result }
        ensures black { self.old.stand.black ≡ true → result ≢ Ended }
    {
        let word = self.board.shared.load::<Halts>(&mut self.seat, HALT);
        self.stand.halt = halt_of(word);
        self.stand.halt
    }

    /// Announces the end, which the node may do by the token that it saw, its counter and its colour. The answer is Ended, or
    /// the failure of a node that came before, of its own only if it said so itself.
    pub fn announce(&mut self) -> Halt
        requires { MayEnd self.old.stand }
        ensures found { FindsHalt self.old self.new result }
        ensures stopped { result ≢ Running }
        ensures same { IsSameSeat self.old self.new }
        ensures event { HasAnnounced self.old self.new result }
        ensures told { TellsHalt self.new result }
        ensures own { KnewOwnFailure self.old result }
    {
        let found = self
            .board
            .shared
            .compare_exchange::<Announces>(&mut self.seat, HALT, RUNNING, ENDED);
        self.stand.halt = halt_after(halt_of(found), Halt::Ended);
        self.stand.halt
    }

    /// Says that this node failed the run. The answer is its failure, or the failure of another node that came before, or, if
    /// the node is white, the end, which node 0 announced before.
    pub fn fail(&mut self) -> Halt
        ensures found { FindsHalt self.old self.new result }
        ensures stopped { result ≢ Running }
        ensures same { IsSameSeat self.old self.new }
        ensures observed { FailsAfter self.old self.new result }
        ensures told { TellsHalt self.new result }
        ensures unannounced { KnewEnd self.old result }
        ensures black { self.old.stand.black ≡ true → result ≢ Ended }
    {
        let mark = FAILED + self.node as u64;
        let found = self
            .board
            .shared
            .compare_exchange::<Fails>(&mut self.seat, HALT, RUNNING, mark);
        self.stand.halt = halt_after(halt_of(found), Halt::Failed(self.node));
        self.stand.halt
    }
}
