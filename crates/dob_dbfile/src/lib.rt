// Tables of values as database files: written to devices and read from them.
//
// Choices:
// - A file is written in pieces of 4 kB, whose room is taken before the first byte goes out, so E23 comes before it. Records are read into segments, so a
//   file that names a large set and ends soon is E15.
// - A reader may be out of memory only once the header names a family with its number of classes.
// - Each format has its title, and what both have in common is said once, by the format (`bytes_in`, `header_len`). Format 2 is read on after its first 20
//   bytes, so E16 and E17 come before it is known that byte 20 is missing, and E27 after that.
// - The tests of a header speak of the bytes that come, and each also of those before it (`dob_dbfile/proofs/Headers.antt`).
#![tactic(auto)]

mod digest;
mod fault;
mod front;
mod header;
mod held;
pub mod laws;
mod look;
mod read;
mod records;
mod write;

pub use digest::{FileHasher, digest_of};
pub use dob_device::{
    Failed, FailedAfter, HeldSource, Lent, MemSink, MemSource, PlacedSource, Sink, Source, Std,
    are_same, put_all, read_full, write_all,
};
pub use fault::Fault;
pub use header::{Format, set_named};
pub use held::{front_family, header_len, held_counted, held_family, held_value};
pub use look::{read_classes, read_value};
pub use read::read_table;
pub use records::value_in;
pub use write::{write_digested, write_table};
