// Safra's termination detection on a ring of at most 16 nodes (Dijkstra, EWD998). Each node has a counter, which
// rises by one at each batch that it posts and falls by one at each batch that it takes, and a colour. A token goes
// round the ring from node to node; when it comes back to node 0, its sum and its colour show whether batches may
// still be in flight.
//
// Choices:
// - `Token` is a plain struct; the condition `IsToken` says what its place and sum may be.
// - A pass after the end leaves the ring lawful, so it is an event like others; that none is made is up to whoever passes the token.
#![tactic(auto)]

mod bounded;
mod event;
mod fault;
pub mod laws;
mod rules;
mod token;
mod word;

pub use bounded::{Bounded, NodeCount};
pub use event::RingEvent;
pub use fault::Nodes;
pub use rules::{may_announce, passed};
pub use token::Token;
pub use word::{pack, unpack};
