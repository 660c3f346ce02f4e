// A runner of a build: a node, and its endpoint.
ghost use Rattle.std.specs.Prelude.{◌≡◌, ◌≢◌, ◌⊎◌, None, Some};
ghost use Rattle.std.specs.Coded.{Π_prop};
ghost use Rattle.dob_board.specs.declared.halt.Halt.TheVariants.{Running, Ended, Failed};
ghost use Rattle.dob_share.specs.declared.cause.Cause.{Cause};
ghost use Rattle.dob_runner.specs.LawfulRunners.{IsLawfulRunner, IsSpared};
ghost use Rattle.dob_runner.specs.Props.{IsLawfulRunner-prop};

use crate::pace::Pace;
use crate::pause::Pause;
use dob_endpoint::Endpoint;
use dob_node::{Cause, Node};
use dob_pieces::Family;
use dob_update::BatchSize;

/// A runner of a build by nodes that own the classes of a family: its node, its seat with its ends of the inboxes, and
/// the greatest size of a batch; and, where it waits for slower ones, the pace of its crew. It is lawful at every moment, unless an item of another node's batch made it fail before the end
/// was announced: where it failed for another cause, as for lack of memory, it has changed nothing. The board says that its
/// node failed only if it has, and where its node has failed it has failed for the same cause.
#[derive(Drop)]
pub struct Runner {
    pub node: Node,
    pub endpoint: Endpoint,
    pub family: Family,
    pub batch_size: BatchSize,
    pub failed: Option<Cause>,
    pub(crate) pace: Option<Pace>,
    pub(crate) pause: Pause,
    pub ghost going: { endpoint.seat.stand.halt ≡ Running → failed ≡ None },
    pub ghost own: { endpoint.seat.stand.halt ≡ Failed endpoint.seat.node → failed ≢ None },
    pub ghost agrees: { (why : Cause) → node.failed ≡ Some why → failed ≡ Some why },
    pub ghost lawful: { (failed ≡ None) ⊎ (endpoint.seat.stand.halt ≡ Ended) ⊎ IsSpared failed → IsLawfulRunner family batch_size node endpoint } by { Π_prop (λ _. IsLawfulRunner-prop family batch_size node endpoint) },
}
