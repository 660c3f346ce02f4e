// The numbers of faults beside those of the program.

/// 28: there is no such move.
pub(crate) const NO_MOVE: u32 = 28;

/// 29: what was handed in is no row of that many numbers, names no block, gives no class of the file, or isn't a list of ranks with plies.
pub(crate) const NO_ROW: u32 = 29;

/// E30: an entry of a certificate isn't shown by the others.
pub(crate) const UNSUPPORTED: u32 = 30;

/// E31: a certificate doesn't show what it claims.
pub(crate) const CLAIM: u32 = 31;

/// E15: bytes are missing.
pub(crate) const TRUNCATED: u32 = 15;

/// E34: there is no claim of that number.
pub(crate) const CLAIM_BYTE: u32 = 34;
