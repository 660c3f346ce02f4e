// The library for programs in other languages: exports on numbers and bytes, which `include/dobutsu.h` declares. A call keeps nothing and takes no
// memory but where it says so; a database's file is the caller's, whole in memory or mapped there.
//
// Choices:
// - A call saves nothing: the file's bytes are the caller's, and the class is counted without a table of the classes (`class_number`). So there is no
//   handle, nothing is to be freed, and `dobutsu_probe` takes no memory.
// - A number of pieces above 2 is E25, a profile's above 1 is E27. By an index the file's number of classes is compared with the index's; only if these
//   differ are the classes counted.
// - `dobutsu_verify` takes memory for the entries and the tables of classes: without them the starting layout's three million look-ups would take minutes.
//   `dobutsu_moves` reads a record a move. `dobutsu_check` goes over the classes in the calling thread, since a library for C starts none.
// - Room for fewer moves than there are gets the first of them, the best, and the count is that of all.
#![tactic(auto)]

mod answers;
mod by_index;
mod certificates;
mod checks;
mod class_by;
mod classes;
mod counts;
mod fault;
mod fault_names;
mod headers;
mod index;
mod many;
mod moves;
mod moves_by;
mod numbered;
mod numbering;
mod numbers;
mod positions;
mod probe_by;
mod probes;
mod readings;
mod replies;
mod shuffled;
mod steps;
mod value;
mod version;
