// Numbers in the fewest bytes.
ghost use Rattle.std.specs.Prelude.{◌≡◌, ◌<◌, ◌≤◌, ◌++◌, ℕ, IfOk, OnOk};
ghost use Rattle.dob_certfile.specs.Numbers.{leb128, leb128_limit};
ghost use Rattle.dob_certfile.specs.Reading.{Gives, byte_at, number_at};

use crate::defect::Defect;
use dob_pieces::Memory;

/// The first byte, and the bytes after it.
///
/// # Errors
///
/// `Truncated`.
pub(crate) fn byte_of(bytes: &[u8]) -> Result<(u8, &[u8]), Defect>
    ensures read { Gives (λ x. (x.0, x.1.now)) result (byte_at bytes.now) }
    ensures small { IfOk result (λ x. x.0 < 256) }
{
    match bytes {
        [] => Err(Defect::Truncated),
        [byte, rest @ ..] => Ok((*byte, rest)),
    }
}

/// The number that stands in the first bytes, at most `more` and one, and the bytes after it. Its last byte is below 128. Of each
/// other one seven bits count, which are lower than those of the bytes after it.
///
/// # Errors
///
/// `Truncated`; `EntryNumber`, if the number isn't in the fewest bytes or has more.
pub(crate) fn number_of(bytes: &[u8], more: u32) -> Result<(u64, &[u8]), Defect>
    requires { more ≤ 4 }
    ensures read { Gives (λ x. (x.0, x.1.now)) result (number_at more bytes.now) }
    ensures small { IfOk result (λ x. x.0 < leb128_limit more) }
{
    let (low, rest) = byte_of(bytes)?;
    let low = low as u64;
    if low < 128 {
        return Ok((low, rest));
    }
    if more == 0 {
        return Err(Defect::EntryNumber);
    }
    let (high, rest) = number_of(rest, more - 1)?;
    if high == 0 {
        return Err(Defect::EntryNumber);
    }
    Ok((low - 128 + 128 * high, rest))
}

/// Appends a number in the fewest bytes.
pub(crate) fn push_number(bytes: &mut Vec<u8>, number: u64) -> Result<(), Memory>
    ensures { (more : ℕ) → number < leb128_limit more → OnOk result (bytes.new.items ≡ bytes.old.items ++ leb128 more number) }
{
    if number < 128 {
        bytes.push(number as u8)?;
        return Ok(());
    }
    bytes.push(128 + (number % 128) as u8)?;
    push_number(bytes, number / 128)
}
