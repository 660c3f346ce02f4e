// Marks of classes, a bit each.
ghost use Rattle.std.specs.Prelude.{◌≡◌, ◌≢◌, ◌<◌, ◌+◌, ◌^◌, ◌↔◌, ℕ, IfOk, length, true};
ghost use Rattle.dob_reach.specs.Marks.{HasBits, IsMarked, mark_of};

use dob_pieces::Memory;
use std::alloc::Global;

/// Which numbers are marked.
#[derive(Drop)]
pub(crate) struct Marks {
    pub(crate) words: Vec<u64>,
}

impl Marks {
    /// None of `count` numbers.
    pub(crate) fn none(alloc: Global, count: u64) -> Result<Marks, Memory>
        requires { count < 2 ^ 32 }
        ensures room { IfOk result (λ marks. HasBits marks.words.items count) }
        ensures none { IfOk result (λ marks. (number : ℕ) → mark_of marks.words.items number ≡ 0) }
    {
        let words = vec![in alloc; 0; (count / 64 + 1) as usize]?;
        Ok(Marks { words })
    }

    /// Whether the number is marked.
    pub(crate) fn has(&self, number: u32) -> bool
        requires { HasBits self.now.words.items (number + 1) }
        ensures { (result ≡ true) ↔ IsMarked self.now.words.items number }
    {
        self.words[number as usize / 64] >> (number % 64) & 1 == 1
    }

    /// Marks the number.
    pub(crate) fn add(&mut self, number: u32)
        requires { HasBits self.now.words.items (number + 1) }
        ensures long { length self.new.words.items ≡ length self.old.words.items }
        ensures marked { IsMarked self.new.words.items number }
        ensures others { (other : ℕ) → other ≢ number → mark_of self.new.words.items other ≡ mark_of self.old.words.items other }
    {
        self.words[number as usize / 64] |= 1 << (number % 64);
    }
}
