// Shelves: where the program finds and keeps files by name, and its standard input.
//
// Choices:
// - What is known of files is a relation of name and bytes (`has` in `ShelfState`), so runs over a disk and over files in memory have one definition. The
//   bytes of a disk's files aren't known; `tells` says which kind a shelf is.
// - Standard input comes from the shelf line by line (`Shelf::next_line`), and is read no further than a line needs; so a program that waits for the answer
//   to a line can be talked with. Lines are bytes. A carriage return at the end of input stays in its line, as std's `lines` has it.
// - A file on the disk is written as `FILE.part` and renamed once its bytes are on the disk, with the mode of the file that it replaces. What is no regular
//   file is written in place.
// - A part is locked (`flock`) while its run lives, so that of two runs of one name the later is refused when it begins (E24), and a part that a killed run
//   left is nobody's. The lock is on the file and not on its name, so a run looks after it has locked a file whether the name still leads there.
// - Where a name leads is asked by device and number (`is_same_file`, `is_stream`), since one file has many spellings. Of files in memory each name is one.
// - What a device said is left in a note (`LastError`), which no clause speaks of. A shelf gets its sources and sinks back (`close`, `keep`, `discard`) and so
//   knows whether one failed; a `find` that gives no source counts as a failure. `make` changes no file, so what
//   takes long is done between it and `keep`; both distinguish E23 from a file that can't be made.
#![tactic(auto)]

mod disk;
mod input_lines;
mod inputs;
mod line_reader;
mod said;
mod shelf;

pub use disk::{Claim, DiskFile, DiskShelf};
pub use inputs::read_up_to;
pub use line_reader::LineReader;
pub use said::{Device, ErrorRecorder, LastError};
pub use shelf::{MemShelf, Shelf, ShelfFault};
