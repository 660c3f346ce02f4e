// `verify`, `certify`, `reply` and `info`: what a certificate proves, one made from a table, the move that one gives, and what the header of one says, or of a
// table's file.
#![tactic(auto)]

mod certificates;
mod certifying;
mod headers;
mod replying;

pub use certificates::answer_verify;
pub use certifying::answer_certify;
pub use headers::answer_info;
pub use replying::answer_reply;
