// What a runner has besides its node: its seat on the board and its ends of the inboxes.
ghost use Rattle.std.specs.Prelude.{◌≡◌, ◌≢◌, ℕ, ◌^◌, ◌<◌, true, Some, None, ◌∷◌, [], ◌++◌, slice_get};
ghost use Rattle.std.specs.Prelude.{slice_index, vec_len, IfSome, IfNone};
ghost use Rattle.dob_safra.specs.declared.event.RingEvent.TheVariants.{Post};
ghost use Rattle.dob_board.specs.Views.{posts_more};
ghost use Rattle.dob_board.specs.Histories.{MakesEvent};
ghost use Rattle.dob_board.specs.Seats.{TakesOne, TakesNone, MovesNothing, witnessed_by};
ghost use Rattle.dob_chan.specs.Ends.{senders_of};
ghost use Rattle.dob_update.specs.Batches.{BatchView};
ghost use Rattle.dob_endpoint.specs.Links.{offered, worked};
ghost use Rattle.dob_endpoint.specs.Endpoints.{AreCounts, AreBatchesTaken, AreOwn, HasChangedOne};

use crate::slots::{Inlet, Outlet};
use dob_board::NodeSeat;
use dob_update::Batch;

/// A runner's seat, an outlet to each node's inbox, its own included, and the inlet of its own inbox. The seat counts the
/// batches that went into the outlets, and those of each sender that the node got from the inlet.
#[derive(Drop)]
pub struct Endpoint {
    pub seat: NodeSeat,
    pub outlets: Vec<Outlet>,
    pub inlet: Inlet,
    pub ghost outlets_len: { vec_len outlets ≡ seat.nodes },
    pub ghost senders: { senders_of inlet.end ≡ seat.nodes },
    pub ghost own: { AreOwn seat.node outlets.items },
    pub ghost posted: { AreCounts offered seat.stand.posted outlets.items },
    pub ghost taken: { AreBatchesTaken seat.nodes seat.stand.taken inlet },
}

impl Endpoint {
    ghost use Rattle.dob_endpoint.specs.Keeps.{KeepsEndpoint};

    /// The endpoint of that seat, with its outlet to each node's inbox and the inlet of its own; the seat has counted the
    /// batches.
    pub fn new(seat: NodeSeat, outlets: Vec<Outlet>, inlet: Inlet) -> Endpoint
        requires outlets { vec_len outlets ≡ seat.nodes }
        requires senders { senders_of inlet.end ≡ seat.nodes }
        requires own { AreOwn seat.node outlets.items }
        requires posted { AreCounts offered seat.stand.posted outlets.items }
        requires taken { AreBatchesTaken seat.nodes seat.stand.taken inlet }
        ensures seat { result.seat ≡ seat }
        ensures outlets { result.outlets ≡ outlets }
        ensures inlet { result.inlet ≡ inlet }
    {
        Endpoint {
            seat,
            outlets,
            inlet,
        }
    }

    /// Counts a batch of the node for another one on the board and puts it into the slot for that node, which is empty. The
    /// node is black, and has counted fewer than 2^40 batches for the other one.
    pub fn post(&mut self, to: usize, batch: Batch)
        requires node { to < self.old.seat.nodes }
        requires other { to ≢ self.old.seat.node }
        requires black { self.old.seat.stand.black ≡ true }
        requires few { slice_index self.old.seat.stand.posted to < 2 ^ 40 }
        requires own { batch.from ≡ self.old.seat.node }
        requires empty { (outlet : Outlet) → slice_get self.old.outlets.items to ≡ Some outlet → outlet.slot ≡ None }
        ensures counted { self.new.seat.stand ≡ posts_more self.old.seat.stand to }
        ensures event { MakesEvent self.old.seat.nodes self.old.seat.node (Post self.old.seat.node to)
            self.old.seat.stand self.new.seat.stand (witnessed_by self.old.seat) (witnessed_by self.new.seat) }
        ensures offered { HasChangedOne (λ old new. (new.end ≡ old.end) × (offered new ≡ offered old ++ batch ∷ [])) to self.old.outlets.items self.new.outlets.items }
        ensures inlet { self.new.inlet ≡ self.old.inlet }
        ensures keeps { KeepsEndpoint self.old self.new }
    {
        self.seat.post(to);
        self.outlets[to].hold(batch);
    }

    /// The batch in the taking slot, which is one of the node `from`, another one, if the board says that it was posted: it is
    /// counted on the board, which blackens the node, and now it is the node's to work in. Otherwise it stays in the slot,
    /// uncounted.
    pub fn accept(&mut self, from: usize) -> Option<Batch>
        requires other { from ≢ self.old.seat.node }
        requires held { (batch : BatchView) × (self.old.inlet.slot ≡ Some batch) × (batch.from ≡ from) }
        ensures held { IfSome result (λ batch. self.old.inlet.slot ≡ Some batch) }
        ensures within { IfSome result (λ batch. batch.from < self.old.seat.nodes) }
        ensures outlets { self.new.outlets ≡ self.old.outlets }
        ensures taken { IfSome result (λ batch. TakesOne self.old.seat self.new.seat batch.from) }
        ensures worked { IfSome result (λ batch. (self.new.inlet.end ≡ self.old.inlet.end) × (worked self.new.inlet ≡ worked self.old.inlet ++ batch ∷ [])) }
        ensures kept { IfNone result (self.new.inlet ≡ self.old.inlet) }
        ensures refused { IfNone result ((seen : ℕ) × TakesNone self.old.seat self.new.seat from seen) }
        ensures uncounted { IfNone result ((self.new.seat.stand.taken ≡ self.old.seat.stand.taken) × (self.new.seat.stand.black ≡ self.old.seat.stand.black)) }
        ensures halt { self.new.seat.stand.halt ≡ self.old.seat.stand.halt }
        ensures still { MovesNothing self.old.seat self.new.seat }
        ensures keeps { KeepsEndpoint self.old self.new }
    {
        if self.seat.take(from).is_err() {
            return None;
        }
        self.inlet.release()
    }
}
