// What a runner's endpoint does with the words of the board besides its counts: the token and the halt.
ghost use Rattle.std.specs.Prelude.{◌≡◌, ◌≢◌, ◌↔◌, IsTrue, None, true};
ghost use Rattle.dob_board.specs.declared.halt.Halt.TheVariants.{Running, Ended};
ghost use Rattle.dob_board.specs.Seats.{KnewOwnFailure, ObservesHalt, TellsHalt, MovesNothing};
ghost use Rattle.dob_endpoint.specs.Endpoints.{AreOut};
ghost use Rattle.dob_endpoint.specs.Keeps.{HasEmptySlots, HasSameLinks, HasSameLinksAndColour};
ghost use Rattle.dob_endpoint.specs.TokenMoves.{HasLooked, MovesToken};

use crate::endpoint::Endpoint;
use crate::slots::Outlet;
use dob_board::Halt;

impl Endpoint {
    // Whether the board's token is at the node, which knows it from then on until it passes it.
    fn find_token(&mut self) -> bool
        ensures found { IsTrue result ↔ (self.new.seat.stand.token ≢ None) }
        ensures looked { HasLooked self.old.seat self.new.seat }
        ensures keeps { HasSameLinksAndColour self.old self.new }
        ensures halt { self.new.seat.stand.halt ≡ self.old.seat.stand.halt }
    {
        let token = self.seat.token();
        token.at == self.seat.node
    }

    /// Passes the token, or announces the end where that may be done, if the board's token is at the node, which is idle. Whether
    /// it is. The seat finds the node's own failure only if it knew that.
    pub fn move_token(&mut self) -> bool
        ensures moves { MovesToken self.old.seat self.new.seat result }
        ensures links { HasSameLinks self.old self.new }
        ensures own { KnewOwnFailure self.old.seat self.new.seat.stand.halt }
    {
        if !self.find_token() {
            return false;
        }
        if self.seat.may_announce() {
            let _ = self.seat.announce();
        } else {
            self.seat.pass();
        }
        true
    }

    /// Says that the node failed the run, and moves no token. The halt that its seat finds isn't `Running`; it is the one that it knew,
    /// if it knew one; and `Ended` only if the node is white.
    pub fn fail(&mut self)
        ensures still { MovesNothing self.old.seat self.new.seat }
        ensures keeps { HasSameLinksAndColour self.old self.new }
        ensures stopped { self.new.seat.stand.halt ≢ Running }
        ensures stays { self.old.seat.stand.halt ≢ Running → self.new.seat.stand.halt ≡ self.old.seat.stand.halt }
        ensures black { self.old.seat.stand.black ≡ true → self.new.seat.stand.halt ≢ Ended }
    {
        let _ = self.seat.fail();
    }

    /// Whether the run goes on, as the board says now: exactly if no node has failed and no end was announced so far. It says that
    /// the node itself failed only if the seat knew that.
    pub fn look_at_halt(&mut self) -> Halt
        ensures halt { result ≡ self.new.seat.stand.halt }
        ensures keeps { HasSameLinksAndColour self.old self.new }
        ensures stays { self.old.seat.stand.halt ≢ Running → self.new.seat.stand.halt ≡ self.old.seat.stand.halt }
        ensures own { KnewOwnFailure self.old.seat self.new.seat.stand.halt }
        ensures observed { ObservesHalt self.old.seat self.new.seat self.new.seat.stand.halt }
        ensures told { TellsHalt self.new.seat self.new.seat.stand.halt }
    {
        self.seat.halted()
    }

    /// Whether no batch lies in a slot.
    pub fn has_empty_slots(&self) -> bool
        ensures { IsTrue result ↔ HasEmptySlots self.now }
    {
        are_out(&self.outlets) && !self.inlet.is_full()
    }
}

// Whether each sending slot is empty.
fn are_out(outlets: &[Outlet]) -> bool
    ensures { IsTrue result ↔ AreOut outlets.now }
{
    outlets.iter().all(|outlet| !outlet.is_full())
}
