// The rules of Dobutsu shogi: the status of a position, its moves in move order, and what a move leads to.
//
// Choices:
// - A profile forbids drops alone (`may_go`), no step, since a chick that steps onto its far row grows. What a move makes of a position (`HasOutcome`) is
//   the same by both, and `Goes A` is exactly that.
// - `moves`, `status` and the counts take any position, not only one of the profile, so no caller has to show that it belongs.
// - A position has the same status in both profiles (`profiles_share_statuses`): beside a chick in hand at most seven pieces stand on the board, and nine
//   squares lie below row 4. `status` takes a profile all the same, at no cost.
// - A drop names a `HandKind`, so no type allows the drop of a lion or a hen.
// - A position that goes through many moves is a `PositionBoard`, which is legal by its type as a `Position` is. A `Walk` lists its moves and makes what each
//   leads to, also as a board; no other place does both. Proofs of the rules stay over cells, where they are easiest to doubt: a board shows one setup
//   (`setup_on`), and the rules speak of that.
// - The capture of a lion is no move: `moves` lists none at Caught, Tried and Stuck; `first_catch` gives the first step that captures the lion, with `grows`
//   true for a chick that does so on its far row.
// - A step or a drop by where it begins and ends is public (`Aim`, `own_kind`, `step_onto`, `put_on`) for the reference program of the rules, which stands in a
//   crate of its own (`dob_reference`).
#![tactic(auto)]

mod at_place;
mod boards_after;
mod count;
mod droppable;
mod first_moves;
mod game_move;
pub mod laws;
mod listing;
mod position_board;
mod position_status;
mod status_of;
mod walks;

pub use at_place::{catch_at, move_at};
pub use boards_after::apply;
pub use first_moves::{Aim, own_kind, put_on, step_onto};
pub use game_move::Move;
pub use listing::{MoveList, moves};
pub use position_board::PositionBoard;
pub use position_status::Status;
pub use status_of::{first_catch, status};
pub use walks::{Outcome, Walk};
