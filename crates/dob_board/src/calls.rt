// What a seat does: it posts, looks and takes. No call waits, takes a lock or takes memory.
ghost use Rattle.std.specs.Prelude.{◌≡◌, ◌≢◌, ◌^◌, ◌<◌, ◌≤◌, true, slice_index, OnOk, IfErr};
ghost use Rattle.dob_safra.specs.declared.event.RingEvent.TheVariants.{Post, Take};
ghost use Rattle.dob_board.specs.declared.halt.Halt.TheVariants.{Ended};
ghost use Rattle.dob_board.specs.Views.{posts_more, takes_more, sees};
ghost use Rattle.dob_board.specs.Histories.{MakesEvent, Observes, HasPosted};
ghost use Rattle.dob_board.specs.Seats.{witnessed_by, IsSameSeat, TakesOne, TakesNone};

use crate::rule::{Looks, Posts, Takes};
use crate::{NodeSeat, NotPosted};

impl NodeSeat {
    /// Counts a batch for the node `to`, another one of the board: the count and its word rise by one. The node must be
    /// black, which it isn't once the end was announced, and the count below 2^40.
    pub fn post(&mut self, to: usize)
        requires node { to < self.old.nodes }
        requires other { to ≢ self.old.node }
        requires black { self.old.stand.black ≡ true }
        requires few { slice_index self.old.stand.posted to < 2 ^ 40 }
        ensures counted { self.new.stand ≡ posts_more self.old.stand to }
        ensures same { IsSameSeat self.old self.new }
        ensures event { MakesEvent self.old.nodes self.old.node (Post self.old.node to) self.old.stand self.new.stand
            (witnessed_by self.old) (witnessed_by self.new) }
        ensures goes_on { self.old.stand.halt ≢ Ended }
    {
        let word = self.posted_index(self.node, to);
        self.board
            .shared
            .fetch_add::<Posts>(&mut self.seat, word, 1);
        self.stand.posted.add_one(to);
    }

    /// How many batches the node `from` was seen to post to this one: what its word says, at least what was seen before
    /// and what is taken.
    pub fn look(&mut self, from: usize) -> u64
        requires { from < self.old.nodes }
        ensures noted { self.new.stand ≡ sees self.old.stand from result }
        ensures same { IsSameSeat self.old self.new }
        ensures not_less { slice_index self.old.stand.seen from ≤ result }
        ensures taken_first { slice_index self.old.stand.taken from ≤ result }
        ensures observed { Observes self.old.nodes self.old.node self.new.stand (witnessed_by self.old) (witnessed_by self.new) (HasPosted from self.old.node result) }
    {
        let word = self.posted_index(from, self.node);
        let number = self.board.shared.load::<Looks>(&mut self.seat, word);
        self.stand.seen.set(from, number);
        number
    }

    // Counts a batch of the node `from`: more of its batches were seen posted than are taken. The node is black afterwards.
    fn count_taken(&mut self, from: usize)
        requires node { from < self.old.nodes }
        requires waiting { slice_index self.old.stand.taken from < slice_index self.old.stand.seen from }
        ensures counted { self.new.stand ≡ takes_more self.old.stand from }
        ensures same { IsSameSeat self.old self.new }
        ensures event { MakesEvent self.old.nodes self.old.node (Take from self.old.node) self.old.stand self.new.stand
            (witnessed_by self.old) (witnessed_by self.new) }
        ensures goes_on { self.old.stand.halt ≢ Ended }
    {
        let word = self.taken_index(from, self.node);
        self.board
            .shared
            .fetch_add::<Takes>(&mut self.seat, word, 1);
        self.stand.taken.add_one(from);
        self.stand.black = true;
    }

    /// Counts a batch of the node `from`, another one of the board, if its word says that it posted more than are taken:
    /// the count and its word rise by one, and the node is black afterwards. A fault changes nothing but what was seen, and
    /// comes always once the end was announced.
    pub fn take(&mut self, from: usize) -> Result<(), NotPosted>
        requires node { from < self.old.nodes }
        requires other { from ≢ self.old.node }
        ensures ok { OnOk result (TakesOne self.old self.new from) }
        ensures err { IfErr result (λ fault. TakesNone self.old self.new from fault.seen) }
        ensures goes_on { OnOk result (self.old.stand.halt ≢ Ended) }
        ensures same { IsSameSeat self.old self.new }
    {
        let seen = self.look(from);
        if seen <= self.stand.taken.get(from) {
            return Err(NotPosted { seen });
        }
        self.count_taken(from);
        Ok(())
    }
}
