// Devices: what bytes are read from and written to, in memory and of the standard library, and whole runs of bytes over them.
//
// Choices:
// - A source or sink stays failed. `MemSink` counts E23 as its failure. A `Std` source shows no bytes; a `Std` sink shows those that its writer shows, and
//   no flushes.
// - Nothing here knows of tables or of what the bytes say, so what needs no more of files is proved beside those.
#![tactic(auto)]

mod bytes;
mod device;
mod held_source;
mod mem_sink;
mod mem_source;
mod std_device;
mod transfer;

pub use bytes::are_same;
pub use device::{Failed, FailedAfter, PlacedSource, Sink, Source};
pub use held_source::HeldSource;
pub use mem_sink::MemSink;
pub use mem_source::MemSource;
pub use std_device::{Lent, Std};
pub use transfer::{put_all, read_full, write_all};
