// A build as the program orders it: a table built by threads, and kept as a file.
//
// Choices:
// - A build's number of nodes is tested first, then its file is made, which changes none, so nothing is built in vain. Its lines are made before the file is
//   written and printed after it: without memory for them there is no file. Without `--nodes` the words promise some number from 1 to 16.
// - A build takes batches of at most 256 items and inboxes of 64 batches: all inboxes of 16 nodes have some 6 MB.
#![tactic(auto)]

mod builds;

pub use builds::answer_build;
