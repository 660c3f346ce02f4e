// How large batches may be, and how many of them a link may hold.
use dob_safra::Bounded;

/// The most items of a batch: 1 to 4096.
pub type BatchSize = Bounded<4096>;

/// The most batches that a link or an inbox holds: 1 to 1024.
pub type Capacity = Bounded<1024>;
