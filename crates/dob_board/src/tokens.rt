// What a seat does with the token of the ring: it looks for it, and passes it.
ghost use Rattle.std.specs.Prelude.{◌≡◌, ◌≢◌, ◌↔◌, ◌^◌, IsTrue, Some, None, pos, neg_ℤ, ◌≤ℤ◌};
ghost use Rattle.dob_safra.specs.declared.token.Token.{Token};
ghost use Rattle.dob_safra.specs.declared.event.RingEvent.TheVariants.{Pass};
ghost use Rattle.dob_board.specs.Views.{counter_of, token_at, meets, passes};
ghost use Rattle.dob_board.specs.Histories.{MakesEvent, Observes, HasToken};
ghost use Rattle.dob_board.specs.Seats.{witnessed_by, IsSameSeat, MayEnd};

use crate::NodeSeat;
use crate::rule::{Meets, Passes};
use crate::words::TOKEN;
use dob_safra::{Token, may_announce, pack, passed, unpack};

// The token, if it is at the node.
fn token_at(node: usize, token: Token) -> Option<Token>
    ensures { result ≡ token_at node token }
{
    if token.at == node { Some(token) } else { None }
}

impl NodeSeat {
    /// The node's counter: the batches that it posted less those that it took.
    pub fn counter(&self) -> i64
        ensures counter { result ≡ counter_of self.now.stand }
        ensures low { neg_ℤ (pos (2 ^ 44)) ≤ℤ result }
        ensures high { result ≤ℤ pos (2 ^ 44) }
    {
        self.stand.posted.total() as i64 - self.stand.taken.total() as i64
    }

    /// The token. If it is at this node, the seat knows it from now on, until it passes it.
    pub fn token(&mut self) -> Token
        ensures noted { self.new.stand ≡ meets self.old.node self.old.stand result }
        ensures same { IsSameSeat self.old self.new }
        ensures stays { (known : Token) → self.old.stand.token ≡ Some known → result ≡ known }
        ensures observed { Observes self.old.nodes self.old.node self.new.stand (witnessed_by self.old) (witnessed_by self.new) (HasToken result) }
    {
        let word = self.board.shared.load::<Meets>(&mut self.seat, TOKEN);
        let Some(token) = unpack(word) else {
            unreachable!()
        };
        self.stand.token = token_at(self.node, token);
        token
    }

    /// Whether the node may announce the end, if it is idle: it is node 0 and white, it saw the token at itself, white, and
    /// the token's sum and its own counter add up to 0.
    pub fn may_announce(&self) -> bool
        ensures { IsTrue result ↔ MayEnd self.now.stand }
    {
        let Some(token) = self.stand.token else {
            return false;
        };
        may_announce(token, self.counter(), self.stand.black, true)
    }

    /// Passes the token, which the seat saw at itself: node 0 begins a new probe at the last node, and any other node hands it
    /// to the node below with its counter and colour. The node is white afterwards.
    pub fn pass(&mut self)
        requires { self.old.stand.token ≢ None }
        ensures passed { (token : Token) → self.old.stand.token ≡ Some token →
            self.new.stand ≡ passes self.old.nodes self.old.node self.old.stand token }
        ensures same { IsSameSeat self.old self.new }
        ensures event { MakesEvent self.old.nodes self.old.node (Pass self.old.node) self.old.stand self.new.stand (witnessed_by self.old) (witnessed_by self.new) }
    {
        let Some(token) = self.stand.token else {
            unreachable!()
        };
        let token = passed(token, self.counter(), self.stand.black, self.nodes.get());
        self.board
            .shared
            .store::<Passes>(&mut self.seat, TOKEN, pack(token));
        self.stand.token = token_at(self.node, token);
        self.stand.black = false;
    }
}
