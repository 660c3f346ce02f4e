// A certificate: two lists of classes.
use crate::entries::Entries;

/// Two lists of classes. `lost` says of each of its classes that it is lost within its number of plies, `held` that it isn't lost within so
/// many, or ever where the number is `EVER`.
#[derive(Drop)]
pub struct Certificate {
    pub lost: Entries,
    pub held: Entries,
}
