// What a build by threads leaves.
ghost use Rattle.std.specs.Prelude.{◌≡◌};
ghost use Rattle.dob_dbfile.specs.Format.{digest_of};

use dob_board::Closed;
use dob_chan::Rejoined;
use dob_value::Table;

/// What a build by threads leaves: the table of the values with the digest of its file, the words of its board, and what went over each
/// link, by sender and then by receiver.
#[derive(Drop)]
pub struct Built {
    pub table: Table,
    pub digest: [u8; 32],
    pub closed: Closed,
    pub links: Vec<Rejoined>,
    ghost digested: { digest ≡ digest_of table },
}
