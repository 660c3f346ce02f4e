// An inbox of one sender: opening it, and joining its two ends again.
ghost use Rattle.std.specs.Prelude.{◌≡◌, ◌<◌, [], ◌∷◌, length, IfOk, IfErr};
ghost use Rattle.dob_chan.specs.Ends.{sent_by, taken_by, capacity_of, ArePaired, IsRejoined};

use crate::ends::{RejoinFault, Rejoined, SendEnd, TakeEnd};
use crate::inboxes::inbox;
use crate::rejoins::rejoin_inbox;
use dob_pieces::Memory;
use dob_safra::NodeCount;
use dob_update::Capacity;
use std::alloc::Global;
use std::sync::Wait;

/// The two ends of a new inbox of one sender, the owner 0, that holds at most `capacity` batches. `Memory` if there is none
/// for them.
pub fn pair(alloc: Global, capacity: Capacity) -> Result<(SendEnd, TakeEnd), Memory>
    ensures paired { IfOk result (λ ends. ArePaired ends.0 ends.1) }
    ensures capacity { IfOk result (λ ends. capacity_of ends.0 ≡ capacity) }
    ensures nothing { IfOk result (λ ends. (sent_by ends.0 ≡ []) × (taken_by ends.1 ≡ [])) }
{
    let (sends, take) = inbox(alloc, NodeCount::one(), capacity)?;
    Ok((only_one(sends), take))
}

/// Ends an inbox of one sender: what was sent is what was received and then what is left. Where there is no memory for what
/// is left, both ends come back as they were. Its promises hold if it returns.
pub fn rejoin<R: Wait>(
    rt: &R,
    alloc: Global,
    send: SendEnd,
    take: TakeEnd,
) -> Result<Rejoined, RejoinFault<SendEnd>>
    requires { ArePaired send take }
    ensures joined { IfOk result (IsRejoined send (taken_by take)) }
    ensures back { IfErr result (λ fault. (fault.sends ≡ send) × (fault.take ≡ take)) }
{
    let Ok(mut sends) = Vec::with_capacity(alloc, 1) else {
        return Err(RejoinFault { sends: send, take });
    };
    sends.push_reserved(send);
    match rejoin_inbox(rt, alloc, sends, take) {
        Ok(joined) => Ok(only_one(joined)),
        Err(RejoinFault { sends, take }) => Err(RejoinFault {
            sends: only_one(sends),
            take,
        }),
    }
}

// The one thing of a vector of one.
fn only_one<T: Drop>(mut things: Vec<T>) -> T
    requires { length things.items ≡ 1 }
    ensures { things.items ≡ result ∷ [] }
{
    things.swap_remove(0)
}
