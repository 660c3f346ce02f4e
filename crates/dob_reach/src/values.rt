// How many of the classes that are reached a table gives a win, a loss and a draw.
ghost use Rattle.std.specs.Prelude.{◌≡◌, ◌<◌, ◌+◌, ◌^◌, ℕ, length};
ghost use Rattle.dob_reach.specs.Marks.{HasBits, IsMarked};
ghost use Rattle.dob_reach.specs.Reached.{AreReachedFrom};
ghost use Rattle.dob_reach.specs.Values.{AreCounted, AreCountedFrom, with_value};

use crate::search::Reached;
use dob_value::{Table, Value};

/// How many classes are won, lost and drawn for the side to move.
#[derive(Clone, Copy)]
pub struct ByValue {
    pub win: u64,
    pub loss: u64,
    pub draw: u64,
}

impl Reached {
    /// The greatest distance of a class, in plies.
    pub fn depth(&self) -> u64
        requires { 0 < length self.now.levels.items }
        ensures { result + 1 ≡ length self.now.levels.items }
    {
        self.levels.len() as u64 - 1
    }

    /// How many of the classes that are reached have which value by a table of their family.
    pub fn by_value(&self, table: &Table) -> ByValue
        requires { (from : ℕ) × AreReachedFrom table.now.family from self.now }
        ensures { (from : ℕ) → AreReachedFrom table.now.family from self.now → AreCountedFrom table.now.family from table.now.values result }
    {
        let count = table.classes().class_count();
        let mut counts = ByValue {
            win: 0,
            loss: 0,
            draw: 0,
        };
        for class in 0..count {
            counts = self.with_class(table, counts, class);
        }
        counts
    }

    // The counts of the classes below this one, with this one.
    fn with_class(&self, table: &Table, counts: ByValue, class: u64) -> ByValue
        requires within { class < length table.now.values }
        requires few { length table.now.values < 2 ^ 31 }
        requires bits { HasBits self.now.marks.words.items (length table.now.values) }
        requires counts { AreCounted (λ (k : ℕ). (k < class) × IsMarked self.now.marks.words.items k) table.now.values counts }
        ensures { AreCounted (λ (k : ℕ). (k < class + 1) × IsMarked self.now.marks.words.items k) table.now.values result }
    {
        if self.marks.has(class as u32) {
            with_value(counts, table.value(class))
        } else {
            counts
        }
    }
}

// The counts with a class of that value.
fn with_value(counts: ByValue, value: Value) -> ByValue
    requires win { counts.win + 1 < 2 ^ 64 }
    requires loss { counts.loss + 1 < 2 ^ 64 }
    requires draw { counts.draw + 1 < 2 ^ 64 }
    ensures { result ≡ with_value counts value }
{
    match value {
        Value::Win(_) => ByValue {
            win: counts.win + 1,
            ..counts
        },
        Value::Loss(_) => ByValue {
            loss: counts.loss + 1,
            ..counts
        },
        Value::Draw => ByValue {
            draw: counts.draw + 1,
            ..counts
        },
    }
}
