// Certificates: lists of classes that prove a position's value without a table.
//
// Choices:
// - An entry says "within", not "exactly": a class is lost within n plies if each move is answered into the list with two plies less. So entries may be
//   loose and a list small; an exact claim takes a second list.
// - A list says nothing of a position whose game has ended: the status decides first.
// - Whether a list shows something, and which entry is the first that it doesn't support, is asked over a trait: `Lookup` finds entries, by classes or by
//   ranks. It takes no memory, so the page, which has none, asks the same.
// - A class has one entry, by the type `Entries`: with two the smaller number could be looked up and the larger one tested.
// - The first unsupported entry is named in the order of the lists, lost before held, whichever thread found it. The threads stand in `dob_check`, so that
//   the library for C and the page link none.
#![tactic(auto)]

mod asking;
mod certificate;
mod claim;
mod entries;
mod entry;
mod list_kind;
mod lists;
mod lookup;
mod refusal;
mod too_many;
mod verifying;

pub use asking::said_lost;
pub use certificate::Certificate;
pub use claim::{Claim, is_shown};
pub use entries::Entries;
pub use entry::{EVER, Entry};
pub use list_kind::ListKind;
pub use lists::{check_entry, check_list, first_broken};
pub use lookup::{ByClass, Lookup};
pub use refusal::Refusal;
pub use too_many::TooMany;
pub use verifying::{check_claim, is_lost_within, is_won_within, verify};
