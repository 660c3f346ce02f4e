// How many of the classes that are reached a table gives which value.
//
// They are counted by their codes in one thread, in the order of the classes, as those of values.rt are.
ghost use Rattle.std.specs.Prelude.{◌<◌, ◌+◌, ◌^◌, ℕ, IfOk, length};
ghost use Rattle.dob_distance.specs.Codes.{values_of_codes};
ghost use Rattle.dob_reach.specs.Codes.{AreCodesCounted, AreCodesCountedFrom};
ghost use Rattle.dob_reach.specs.Marks.{HasBits, IsMarked};
ghost use Rattle.dob_reach.specs.Reached.{AreReachedFrom};

use crate::search::Reached;
use dob_lists::Segments;
use dob_pieces::Memory;
use dob_value::Table;
use std::alloc::Global;

// How many codes there are: those of 16 bits.
const CODES: usize = 65_536;

impl Reached {
    /// How many of the classes that are reached have which value by a table of their family: a number for each of the 65,536 codes of values,
    /// which [`dob_value::value_of_code`] turns into values. It takes half a megabyte.
    pub fn by_code(&self, alloc: Global, table: &Table) -> Result<Vec<u64>, Memory>
        requires { (from : ℕ) × AreReachedFrom table.now.family from self.now }
        ensures { IfOk result (λ counts. (from : ℕ) → AreReachedFrom table.now.family from self.now
            → AreCodesCountedFrom table.now.family from table.now.values counts.items) }
    {
        let count = table.classes().class_count();
        let codes = table.codes();
        let mut counts = vec![in alloc; 0; CODES]?;
        for class in 0..count {
            self.count_class(codes, &mut counts, class);
        }
        Ok(counts)
    }

    // Counts the class by its code, if it is reached.
    fn count_class(&self, codes: &Segments<u16>, counts: &mut Vec<u64>, class: u64)
        requires within { class < length codes.now }
        requires few { length codes.now < 2 ^ 31 }
        requires bits { HasBits self.now.marks.words.items (length codes.now) }
        requires counted { AreCodesCounted (λ (k : ℕ). (k < class) × IsMarked self.now.marks.words.items k) (values_of_codes codes.now) counts.old.items }
        ensures { AreCodesCounted (λ (k : ℕ). (k < class + 1) × IsMarked self.now.marks.words.items k) (values_of_codes codes.now) counts.new.items }
    {
        if self.marks.has(class as u32) {
            counts[codes.get(class) as usize] += 1;
        }
    }
}
