// A world that is driven by rounds of events until nothing is left to do.
ghost use Rattle.std.specs.Prelude.{◌≡◌, ℕ, ◌+◌, ◌*◌, ◌^◌, ◌<◌, ◌≤◌, false, None, IfOk, IfErr, OnErr};
ghost use Rattle.dob_rank.specs.Families.{classes_of};
ghost use Rattle.dob_world.specs.Rounds.{round_length, round_event};
ghost use Rattle.dob_world.specs.Shown.{setting_of, state_of};
ghost use Rattle.dob_world.specs.Standing.{IsStanding, StandsOrStopped};
ghost use Rattle.dob_world.specs.Worlds.{HaveFallsIn};
ghost use Rattle.dob_world.specs.Stops.{IsForMemory};
ghost use Rattle.dob_world.specs.Results.{HasMadeRound, HasDriven, StopsInRounds};

use crate::event::Event;
use crate::world::World;
use dob_safra::NodeCount;
use dob_share::BuildFault;

impl World {
    /// Makes at most `rounds` rounds of events, up to the first in which no event was done. A round is each node's `Expand`
    /// and `Own`, then all `Post`, then all `Take`, by sender and then by receiver, then `Pass` from the last node down, and
    /// `Announce`. The answer is whether no event of the last round was done; then the end is announced. It is false for no
    /// round.
    ///
    /// # Errors
    ///
    /// `Stopped`, as at a step, and the world is left as that step leaves it; in a set of fewer than 65,535 classes for lack
    /// of memory alone.
    pub fn drive(&mut self, rounds: u64) -> Result<bool, BuildFault>
        requires few { self.old.steps + rounds * round_length self.old.node_count ≤ 2 ^ 40 }
        requires standing { IsStanding self.old }
        requires going { self.old.failed ≡ None }
        ensures driven { IfOk result (λ still. HasDriven self.old rounds still self.new) }
        ensures memory { classes_of (setting_of self.old).family < 65535 → IfErr result IsForMemory }
        ensures falls { IfOk result (λ still. HaveFallsIn (setting_of self.new) (state_of self.new).world.nodes) }
        ensures stopped { IfErr result (λ fault. StopsInRounds self.old rounds fault self.new) }
        ensures unannounced { OnErr result (self.new.detector.announced ≡ false) }
        ensures kept { StandsOrStopped self.new }
    {
        for _round in 0..rounds {
            match self.round() {
                Ok(false) => {}
                Ok(true) => return Ok(true),
                Err(fault) => return Err(fault),
            }
        }
        Ok(false)
    }

    // Makes the events of a round. True if none was done.
    fn round(&mut self) -> Result<bool, BuildFault>
        requires few { self.old.steps + round_length self.old.node_count ≤ 2 ^ 40 }
        requires standing { IsStanding self.old }
        requires going { self.old.failed ≡ None }
        ensures made { IfOk result (λ still. HasMadeRound self.old still self.new) }
        ensures memory { classes_of (setting_of self.old).family < 65535 → IfErr result IsForMemory }
        ensures stopped { IfErr result (λ fault. StopsInRounds self.old 1 fault self.new) }
        ensures kept { StandsOrStopped self.new }
    {
        let before = self.steps;
        let nodes = self.node_count;
        for place in 0..round_length(nodes) {
            match self.step(event_at(nodes, place)) {
                Ok(_) => {}
                Err(fault) => return Err(fault),
            }
        }
        Ok(self.steps == before)
    }
}

// How many events a round of `nodes` nodes has.
fn round_length(nodes: NodeCount) -> usize
    ensures { result ≡ round_length nodes }
{
    let nodes = nodes.get();
    3 * nodes + 2 * (nodes * nodes) + 1
}

// The event of that number in a round of `nodes` nodes.
fn event_at(nodes: NodeCount, place: usize) -> Event
    requires { place < round_length nodes }
    ensures { result ≡ round_event nodes place }
{
    let nodes = nodes.get();
    let first_post = 2 * nodes;
    let first_take = 2 * nodes + nodes * nodes;
    let first_pass = 2 * nodes + 2 * (nodes * nodes);
    let last = 3 * nodes + 2 * (nodes * nodes);
    if place < first_post {
        if place % 2 == 0 {
            Event::Expand(place / 2)
        } else {
            Event::Own(place / 2)
        }
    } else if place < first_take {
        let pair = place - first_post;
        Event::Post {
            from: pair / nodes,
            to: pair % nodes,
        }
    } else if place < first_pass {
        let pair = place - first_take;
        Event::Take {
            from: pair / nodes,
            to: pair % nodes,
        }
    } else if place < last {
        Event::Pass(last - 1 - place)
    } else {
        Event::Announce
    }
}
