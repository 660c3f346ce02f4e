// How many items the segments of a list have.
ghost use Rattle.std.specs.Prelude.{◌≡◌, ◌⊎◌, ◌^◌, ◌*◌, ◌<◌, ◌≤◌, ◌/◌, ◌%◌, MatchOption};
ghost use Rattle.dob_lists.specs.Segmented.{IsShift};

use crate::powers::split_by_power;

/// The most items that a segment has.
const MOST: u32 = 1 << 20;

/// How many items each segment of a list but the last has: a power of 2 from 1 to 2^20, so that a place is split by a shift and
/// a mask, which take half the time of a division.
#[derive(Clone, Copy)]
pub struct SegmentLength {
    items: u32,
    shift: u32,
    ghost size: { (0 < items) × (items ≤ 2 ^ 20) },
    ghost power: { IsShift items shift },
}

impl SegmentLength {
    /// The greatest length of at most `items` items; none if they aren't 1 to 2^20.
    pub fn of(items: u32) -> Option<SegmentLength>
        ensures { MatchOption result ((items ≡ 0) ⊎ (2 ^ 20 < items)) (λ length. (length.items ≤ items) × (items < 2 * length.items)) }
    {
        if items == 0 || items > MOST {
            return None;
        }
        let shift = items.ilog2();
        Some(SegmentLength {
            items: 1 << shift,
            shift,
        })
    }

    /// The greatest length.
    pub fn longest() -> SegmentLength
        ensures { result.items ≡ 2 ^ 20 }
    {
        SegmentLength {
            items: MOST,
            shift: 20,
        }
    }

    /// How many items a segment of that length has.
    pub fn items(self) -> u32
        ensures items { result ≡ self.items }
        ensures low { 0 < result }
        ensures high { result ≤ 2 ^ 20 }
    {
        self.items
    }

    /// Where an item stands: the number of its segment, and its place there.
    pub(crate) fn split(self, place: u64) -> (usize, usize)
        ensures number { result.0 ≡ place / self.items }
        ensures within { result.1 ≡ place % self.items }
    {
        let (number, within) = split_by_power(place, u64::from(self.shift));
        (number as usize, within as usize)
    }
}
