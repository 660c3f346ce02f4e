// The numbers of faults, as the program prints them.

/// E21: the table isn't consistent.
pub(crate) const INCONSISTENT: u32 = 21;

/// E23: memory ran out.
pub(crate) const MEMORY: u32 = 23;

/// E25: the numbers of pieces are those of no set.
pub(crate) const SET_TEXT: u32 = 25;

/// E27: the number is that of no profile.
pub(crate) const PROFILE_BYTE: u32 = 27;

/// 28: the position has no such move.
pub(crate) const NO_MOVE: u32 = 28;

/// E29: the numbers are no index of the family, or too few.
pub(crate) const INDEX: u32 = 29;

/// E30: an entry of a certificate isn't supported.
pub(crate) const UNSUPPORTED: u32 = 30;

/// E33: the family has no class of that number.
pub(crate) const NO_CLASS: u32 = 33;

/// E31: the lists of a certificate don't show its claim.
pub(crate) const CLAIM: u32 = 31;
