// Certificates made from a table of values, and the moves that a certificate gives.
//
// Choices:
// - A certificate is found by a search of which only this is proved, that its lists say what the table says. It is verified before it is given away: what is
//   promised is what `verify` promises. That a small one is found is only tested.
// - Replies are chosen as late as possible. The classes of the lost list come by falling distance; a position waits until the distance of its shortest
//   reply, since by then another reason may have listed a class that answers it. Then the positions with the fewest replies choose first, each the one that
//   most could take. For the starting layout that is 176,436 entries, where the shortest reply at once takes 214,410.
// - A class that isn't lost takes the move that asks for the cheapest classes: one that its side to move wins in w plies costs 1.5 to the power of half w,
//   any other 20.
// - Members stand by class in a map, so memory grows with the list and not with the table. The move of a certificate is the one with the fewest plies that
//   the list says.
#![tactic(auto)]

mod fault;
mod held;
mod lost;
mod making;
mod members;
mod outcomes;
mod replies;

pub use fault::MakingFault;
pub use making::{Certified, certify, claim_of, rounds_of};
pub use replies::{Reply, reply_to};
