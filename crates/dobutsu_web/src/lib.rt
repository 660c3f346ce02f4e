// Positions for a program that holds no file and can give no memory, as a page in a browser: exports on numbers and bytes, which take no memory and keep
// nothing, so that they can be compiled for WebAssembly.
//
// Choices:
// - The module holds no file and no memory: the page reads the header and two bytes a class by slices, and WebAssembly of 64 bits has no allocator here.
//   Between calls the page puts texts and numbers in.
// - A row that the caller hands in is believed for the class alone: by other numbers a call answers some class below the end. `page/wasm.js` hands in the
//   row that `dobutsu_row` wrote.
// - If the lion can be captured each such step has its place, as the page shows them all; the value of each is a win in 1 ply.
#![tactic(auto)]

mod asked;
mod claims;
mod classes;
mod headers;
mod numbers;
mod ranked;
mod rows;
mod statuses;
mod steps;
mod texts;
mod values;
mod verify;
