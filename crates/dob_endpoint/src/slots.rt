// The ends by which a runner sends and takes, each with a slot for one batch between the board and an inbox, or an inbox and
// the node.
ghost use Rattle.std.specs.Prelude.{◌≡◌, ◌<◌, ◌++◌, Some};
ghost use Rattle.dob_update.specs.Batches.{BatchView};
ghost use Rattle.dob_chan.specs.Ends.{place_of, taken_by, senders_of};
ghost use Rattle.dob_endpoint.specs.Slots.{in_slot, worked_of};

use dob_chan::{SendEnd, TakeEnd};
use dob_update::Batch;

/// An end that sends to another node's inbox, and a slot that has a batch while the inbox doesn't take it.
#[derive(Drop)]
pub struct Outlet {
    pub end: SendEnd,
    pub slot: Option<Batch>,
    pub ghost own: { (batch : BatchView) → slot ≡ Some batch → batch.from ≡ place_of end },
}

/// The end that takes from the node's inbox, and a slot that has the last batch that came out while the node hasn't worked it
/// in.
#[derive(Drop)]
pub struct Inlet {
    pub end: TakeEnd,
    pub slot: Option<Batch>,
    pub ghost last: { taken_by end ≡ worked_of end slot ++ in_slot slot },
    pub ghost within: { (batch : BatchView) → slot ≡ Some batch → batch.from < senders_of end },
}
