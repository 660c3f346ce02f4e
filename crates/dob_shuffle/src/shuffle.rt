// A shuffle: the numbers below a count, each at a place of its own.
ghost use Rattle.std.specs.Prelude.{◌<◌, ◌^◌};

use crate::rounds::{cell_of, number_of, round, round_back};
use rand_core::SeedableRng;
use rand_core::utils::NextWord;
use rand_xoshiro::SplitMix64;

/// An order of the numbers below a count. Its places are those of a square that has some more: at such a place stands a number that
/// isn't below the count.
///
/// With `side` the square root of the count, cut, and 1 more, and with the keys the first three words of SplitMix64 from the seed on, the number
/// of place `p` comes so: `row` is `p / side` and `column` is `p % side`; then for each key in turn `column` becomes `(column + word(key + row)) %
/// side`, and after it `row` becomes `(row + word(key + side + column)) % side`; the number is `row * side + column`. Here `word(n)` is the word
/// that SplitMix64 makes from the state `n`: with all sums and products cut to 64 bits, z is n + 0x9e3779b97f4a7c15, then (z xor z >> 30) *
/// 0xbf58476d1ce4e5b9, then (z xor z >> 27) * 0x94d049bb133111eb, and the word z xor z >> 31. A key's successor comes from the state that is
/// 0x9e3779b97f4a7c15 greater.
#[derive(Clone, Copy)]
pub struct Shuffle {
    side: u64,
    first: u64,
    second: u64,
    third: u64,
    ghost small: { side < 2 ^ 32 },
}

impl Shuffle {
    ghost use Rattle.std.specs.Prelude.{◌≡◌, ◌<◌, ◌*◌, ◌^◌};
    ghost use Rattle.dob_shuffle.specs.Shuffles.{IsShuffle, number_at, place_of};

    /// The order of the numbers below `count` that the seed makes.
    pub fn new(seed: u64, count: u64) -> Shuffle
        requires { count < 2 ^ 63 }
        ensures { IsShuffle seed count result }
    {
        let side = count.isqrt() + 1;
        let mut words = SplitMix64::seed_from_u64(seed);
        let first = words.next_word();
        let second = words.next_word();
        let third = words.next_word();
        Shuffle {
            side,
            first,
            second,
            third,
        }
    }

    /// How many places there are: the square of the side.
    pub fn places(&self) -> u64
        ensures { result ≡ self.now.side * self.now.side }
    {
        self.side * self.side
    }

    /// The number of a place.
    pub fn number_at(&self, place: u64) -> u64
        requires { place < self.now.side * self.now.side }
        ensures value { result ≡ number_at self.now place }
        ensures below { result < self.now.side * self.now.side }
    {
        let side = self.side;
        let begun = round(side, self.first, cell_of(side, place));
        let ended = round(side, self.third, round(side, self.second, begun));
        number_of(side, ended)
    }

    /// The place of a number.
    pub fn place_of(&self, number: u64) -> u64
        requires { number < self.now.side * self.now.side }
        ensures value { result ≡ place_of self.now number }
        ensures below { result < self.now.side * self.now.side }
    {
        let side = self.side;
        let begun = round_back(side, self.third, cell_of(side, number));
        let ended = round_back(side, self.first, round_back(side, self.second, begun));
        number_of(side, ended)
    }
}
