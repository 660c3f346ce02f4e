// Sets of squares, with a bit for each square. Contracts see a set as the number of its bits, of which `IsMask` says which squares it has.
ghost use Rattle.std.specs.Prelude.{◌≡◌, ◌↔◌, ◌<◌, ◌≤◌, ◌==◌, ◌&&◌, ◌||◌, ℕ, Bool, IsTrue, MatchOption, length, not};
ghost use Rattle.dob_pieces.specs.Masks.{IsMask, IsFirst, squares_in, with_square, without_square};
ghost use Rattle.dob_pieces.specs.Squares.{flipped_square, mirrored_square, turned_square};

use crate::square::Square;
use std::marker::Model;

/// A set of squares. Of its twelve bits the lowest three are row 1, and of the three of a row the lowest is column a.
#[derive(Clone, Copy)]
pub struct SquareSet {
    bits: u16,
}

impl Model for SquareSet {
    ghost use Rattle.std.specs.Prelude.{ℕ, ◌<◌};

    ghost Value = { ℕ };

    ghost view = { λ set. set.bits };

    ghost invariant = { λ set. set.bits < 4096 };

    ghost inverse = { λ bits. record { bits = bits } };
}

impl SquareSet {
    /// No square.
    pub const EMPTY: SquareSet = SquareSet { bits: 0 };

    /// All squares of the board.
    pub const ALL: SquareSet = SquareSet {
        bits: 0b111_111_111_111,
    };

    /// The squares of each column.
    pub const COLUMN_A: SquareSet = SquareSet {
        bits: 0b001_001_001_001,
    };

    pub const COLUMN_B: SquareSet = SquareSet {
        bits: 0b010_010_010_010,
    };

    pub const COLUMN_C: SquareSet = SquareSet {
        bits: 0b100_100_100_100,
    };

    /// The squares of row 4.
    pub const FAR_ROW: SquareSet = SquareSet {
        bits: 0b111_000_000_000,
    };

    /// The set with those bits.
    #[inline(always)]
    pub fn of_bits(bits: u16) -> SquareSet
        requires { bits < 4096 }
        ensures { result ≡ bits }
    {
        SquareSet { bits }
    }

    /// That square alone.
    #[inline(always)]
    #[tactic(auto, using(crate::proofs::Targets::alone_laws))]
    pub fn of(square: Square) -> SquareSet
        ensures { IsMask (λ other. other == square) result }
    {
        SquareSet {
            bits: 1 << square.index(),
        }
    }

    /// Whether the set has no square.
    #[inline(always)]
    pub fn is_empty(self) -> bool
        ensures { IsTrue result ↔ (self ≡ 0) }
    {
        self.bits == 0
    }

    /// Whether the set has the square.
    #[inline(always)]
    pub fn has(self, square: Square) -> bool
        ensures { (test : ℕ → Bool) → IsMask test self → result ≡ test square }
    {
        self.bits >> square.index() & 1 == 1
    }

    /// The first square of the set.
    #[inline(always)]
    pub fn first(self) -> Option<Square>
        ensures { MatchOption result (self ≡ 0) (IsFirst self) }
    {
        if self.is_empty() {
            None
        } else {
            Some(self.lowest())
        }
    }

    /// The first square of a set that has one.
    #[inline(always)]
    #[tactic(auto, using(crate::proofs::MaskBits::set_laws))]
    pub fn lowest(self) -> Square
        requires { 0 < self }
        ensures { IsFirst self result }
    {
        Square::new(self.bits.trailing_zeros() as usize)
    }

    /// How many squares the set has.
    #[inline(always)]
    #[tactic(auto, using(crate::proofs::MaskWalks::counts))]
    pub fn count(self) -> u8
        ensures number { result ≡ length (squares_in self) }
        ensures few { result ≤ 12 }
    {
        self.bits.count_ones() as u8
    }

    /// The set with the square.
    #[inline(always)]
    #[tactic(auto, using(crate::proofs::MaskBits::set_laws))]
    pub fn with(self, square: Square) -> SquareSet
        ensures { result ≡ with_square self square }
    {
        SquareSet {
            bits: self.bits | 1 << square.index(),
        }
    }

    /// The set without the square.
    #[inline(always)]
    pub fn without(self, square: Square) -> SquareSet
        ensures { result ≡ without_square self square }
    {
        SquareSet {
            bits: self.bits & !(1 << square.index()),
        }
    }

    /// The squares of both sets.
    #[inline(always)]
    pub fn and(self, other: SquareSet) -> SquareSet
        ensures { (f g : ℕ → Bool) → IsMask f self → IsMask g other → IsMask (λ square. f square && g square) result }
    {
        SquareSet {
            bits: self.bits & other.bits,
        }
    }

    /// The squares of either set.
    #[inline(always)]
    pub fn or(self, other: SquareSet) -> SquareSet
        ensures { (f g : ℕ → Bool) → IsMask f self → IsMask g other → IsMask (λ square. f square || g square) result }
    {
        SquareSet {
            bits: self.bits | other.bits,
        }
    }

    /// The squares of the set that the other one doesn't have.
    #[inline(always)]
    pub fn but_not(self, other: SquareSet) -> SquareSet
        ensures { (f g : ℕ → Bool) → IsMask f self → IsMask g other → IsMask (λ square. f square && not (g square)) result }
    {
        SquareSet {
            bits: self.bits & !other.bits,
        }
    }

    /// The set after a half turn of the board.
    pub fn turned(self) -> SquareSet
        ensures { (test : ℕ → Bool) → IsMask test self → IsMask (λ square. test (turned_square square)) result }
    {
        self.mirrored().flipped()
    }

    // The set with the rows in the other order.
    fn flipped(self) -> SquareSet
        ensures { (test : ℕ → Bool) → IsMask test self → IsMask (λ square. test (flipped_square square)) result }
    {
        let bits = self.bits;
        SquareSet {
            bits: (bits & 0o7) << 9 | (bits & 0o70) << 3 | (bits >> 3) & 0o70 | bits >> 9,
        }
    }

    /// The set with columns a and c exchanged.
    pub fn mirrored(self) -> SquareSet
        ensures { (test : ℕ → Bool) → IsMask test self → IsMask (λ square. test (mirrored_square square)) result }
    {
        let bits = self.bits;
        let a = SquareSet::COLUMN_A.bits;
        let b = SquareSet::COLUMN_B.bits;
        SquareSet {
            bits: (a & bits) << 2 | b & bits | a & (bits >> 2),
        }
    }
}

impl From<SquareSet> for u64 {
    ghost from_gives = { λ set number. number ≡ set };

    /// The set's bits.
    #[inline(always)]
    fn from(set: SquareSet) -> u64 {
        u64::from(set.bits)
    }
}

/// The squares of a set, one after the other.
#[derive(Clone, Copy)]
pub struct Squares {
    left: SquareSet,
}

impl IntoIterator for SquareSet {
    type Item = Square;

    type IntoIter = Squares;

    ghost into_iter_gives = { λ set squares. squares.left ≡ set };

    #[inline(always)]
    fn into_iter(self) -> Squares {
        Squares { left: self }
    }
}

impl Iterator for Squares {
    type Item = Square;

    ghost use Rattle.std.specs.Iterator.{YieldsFirst, item_count};
    ghost use Rattle.dob_pieces.specs.Masks.{squares_in};

    ghost next_gives = { YieldsFirst (λ squares. squares_in squares.left) };

    ghost remaining = { item_count (λ squares. squares_in squares.left) };

    #[inline(always)]
    fn next(&mut self) -> Option<Square> {
        let left = self.left;
        if left.bits == 0 {
            return None;
        }
        let first = left.lowest();
        self.left = left.without(first);
        Some(first)
    }
}
