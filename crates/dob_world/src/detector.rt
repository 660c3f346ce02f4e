// What finds out that nothing is left to do: Safra's ring beside the nodes, with the batches that they posted and took.
ghost use Rattle.std.specs.Prelude.{◌≡◌, ◌<◌, ◌^◌, ◌↔◌, ◌≤ℤ◌, neg_ℤ, pos, true, IfOk, IsTrue};
ghost use Rattle.dob_safra.specs.declared.event.RingEvent.TheVariants.{Post, Take, Pass, Announce};
ghost use Rattle.dob_safra.specs.Rings.{IsLawfulRing, IsStart, IsAnnounceable, Moved, counter};
ghost use Rattle.dob_world.specs.Shown.{ring_of};
ghost use Rattle.dob_world.specs.Standing.{IsCounted, CanCount};

use dob_pieces::Memory;
use dob_safra::{NodeCount, Token, may_announce, passed};
use std::alloc::Global;

// How many batches were posted and how many of them taken, by sender and then by receiver; whether each node is black; the
// token; and whether the end is announced.
#[derive(Drop)]
pub(crate) struct Detector {
    pub(crate) nodes: NodeCount,
    pub(crate) posted: Vec<u64>,
    pub(crate) taken: Vec<u64>,
    pub(crate) black: Vec<bool>,
    pub(crate) token: Token,
    pub(crate) announced: bool,
}

impl Detector {
    // The ring of `nodes` nodes at its start.
    pub(crate) fn open(alloc: Global, nodes: NodeCount) -> Result<Detector, Memory>
        ensures start { IfOk result (λ detector. IsStart nodes (ring_of detector)) }
        ensures counted { IfOk result (λ detector. IsCounted detector × (detector.nodes ≡ nodes)) }
    {
        let count = nodes.get();
        let posted = vec![in alloc; 0; count * count]?;
        let taken = vec![in alloc; 0; count * count]?;
        let black = vec![in alloc; true; count]?;
        Ok(Detector {
            nodes,
            posted,
            taken,
            black,
            token: Token::first(),
            announced: false,
        })
    }

    // The black node `from` has posted a batch to the node `to`.
    pub(crate) fn count_post(&mut self, from: usize, to: usize)
        requires ready { CanCount self.old from to }
        requires black { (ring_of self.old).black from ≡ true }
        requires few { (ring_of self.old).posted from to < 2 ^ 40 }
        ensures moved { Moved self.old.nodes (ring_of self.old) (Post from to) (ring_of self.new) }
        ensures counted { IsCounted self.new × (self.new.nodes ≡ self.old.nodes) }
    {
        let place = from * self.nodes.get() + to;
        self.posted[place] += 1;
    }

    // The node `to` has taken a batch of the node `from`, and is black now.
    pub(crate) fn count_take(&mut self, from: usize, to: usize)
        requires ready { CanCount self.old from to }
        requires waiting { (ring_of self.old).taken from to < (ring_of self.old).posted from to }
        ensures moved { Moved self.old.nodes (ring_of self.old) (Take from to) (ring_of self.new) }
        ensures counted { IsCounted self.new × (self.new.nodes ≡ self.old.nodes) }
    {
        let place = from * self.nodes.get() + to;
        self.taken[place] += 1;
        self.black[to] = true;
    }

    // The counter of the node: the batches that it posted, less those that it took.
    fn counter(&self, node: usize) -> i64
        requires node { node < self.now.nodes }
        requires counted { IsCounted self.now }
        requires lawful { IsLawfulRing self.now.nodes (ring_of self.now) }
        ensures value { result ≡ counter self.now.nodes (ring_of self.now) node }
        ensures low { neg_ℤ (pos (2 ^ 44)) ≤ℤ result }
        ensures high { result ≤ℤ pos (2 ^ 44) }
    {
        let nodes = self.nodes.get();
        let mut posted = 0;
        let mut taken = 0;
        for other in 0..nodes {
            posted += self.posted[node * nodes + other];
            taken += self.taken[other * nodes + node];
        }
        posted as i64 - taken as i64
    }

    // The node that has the token passes it, and is white now.
    pub(crate) fn pass_token(&mut self)
        requires counted { IsCounted self.old }
        requires lawful { IsLawfulRing self.old.nodes (ring_of self.old) }
        ensures moved { Moved self.old.nodes (ring_of self.old) (Pass self.old.token.at) (ring_of self.new) }
        ensures counted { IsCounted self.new × (self.new.nodes ≡ self.old.nodes) }
    {
        let node = self.token.at;
        self.token = passed(
            self.token,
            self.counter(node),
            self.black[node],
            self.nodes.get(),
        );
        self.black[node] = false;
    }

    // Whether the end may be announced, where node 0 is idle.
    pub(crate) fn may_end(&self) -> bool
        requires counted { IsCounted self.now }
        requires lawful { IsLawfulRing self.now.nodes (ring_of self.now) }
        ensures { IsTrue result ↔ IsAnnounceable self.now.nodes (ring_of self.now) true }
    {
        may_announce(self.token, self.counter(0), self.black[0], true)
    }

    // The end, which may be announced, is.
    pub(crate) fn announce_end(&mut self)
        requires counted { IsCounted self.old }
        requires may { IsAnnounceable self.old.nodes (ring_of self.old) true }
        ensures moved { Moved self.old.nodes (ring_of self.old) Announce (ring_of self.new) }
        ensures counted { IsCounted self.new × (self.new.nodes ≡ self.old.nodes) }
    {
        self.announced = true;
    }
}
