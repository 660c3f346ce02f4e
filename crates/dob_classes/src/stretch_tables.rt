// The marks of a family's positions in a run whose lions both stand on column b, as stretches of numbers that are all marked or all not: the stretches
// of the set's places (src/class_walks.rt), each as long as the family has positions there.
ghost use Rattle.std.specs.Prelude.{◌≡◌, true, ◌<◌, ◌%◌, IfOk};
ghost use Rattle.dob_rank.specs.Numbers.{product, block_bases};
ghost use Rattle.dob_rank.specs.Marks.{marks_below};
ghost use Rattle.dob_rank.specs.Runs.{runs_in, run_kind, lion_pairs};
ghost use Rattle.dob_classes.specs.FamilyRuns.{run_size_in, local_marks_in};
ghost use Rattle.dob_classes.specs.Stretches.{AreStretches};
ghost use Rattle.dob_rank.specs.declared.runs.RunKind.TheVariants.{Mixed};

use crate::class_walks::MixedRun;
use crate::run_shapes::shape_of;
use crate::stretches::{Stretch, push_stretch};
use dob_pieces::{Family, Memory};
use dob_rank::block;
use std::alloc::Global;

/// The stretches of a run of a family.
#[derive(Drop)]
pub(crate) struct StretchTable {
    pub(crate) family: Family,
    pub(crate) block: u64,
    pub(crate) run: u64,
    pub(crate) count: u64,
    list: Vec<Stretch>,
    ghost within: { block < product (block_bases family.set) },
    ghost there: { run < runs_in family.set block },
    ghost table: { AreStretches (local_marks_in family block run) (run_size_in family block run) list.items },
    ghost counted: { count ≡ marks_below (local_marks_in family block run) (run_size_in family block run) },
}

impl StretchTable {
    /// The stretches of a run whose lions both stand on column b.
    pub(crate) fn open(
        alloc: Global,
        family: Family,
        block: u64,
        run: u64,
    ) -> Result<StretchTable, Memory>
        requires block { block < product (block_bases family.set) }
        requires run { run < runs_in family.set block }
        requires kind { run_kind (run % lion_pairs) ≡ Mixed }
        ensures family { IfOk result (λ stretches. stretches.family ≡ family) }
        ensures block { IfOk result (λ stretches. stretches.block ≡ block) }
        ensures run { IfOk result (λ stretches. stretches.run ≡ run) }
    {
        let size = block::run_size_in(family.set, block);
        let mixed = MixedRun { family, block, run };
        let shape = shape_of(family.set, block, run);
        let mut walk = mixed.walk_from(0);
        let mut list = Vec::new(alloc);
        let mut count = 0;
        let mut last = false;
        while walk.place < size {
            let (next, marks) = mixed.step(&shape, walk, size);
            push_stretch(&mut list, walk.number, count, next.is_marked, last)?;
            last = next.is_marked;
            count += marks;
            walk = next;
        }
        Ok(StretchTable {
            family,
            block,
            run,
            count,
            list,
        })
    }

    /// Whether the run's position of that number is marked, and how many marked ones are before it in the run.
    pub(crate) fn look_up(&self, number: u64) -> (bool, u64)
        requires { number < run_size_in self.now.family self.now.block self.now.run }
        ensures mark { result.0 ≡ local_marks_in self.now.family self.now.block self.now.run number }
        ensures before { result.1 ≡ marks_below (local_marks_in self.now.family self.now.block self.now.run) number }
    {
        let mut low = 0;
        let mut high = self.list.len();
        while 1 < high - low {
            let middle = low + (high - low) / 2;
            if self.list[middle].start <= number {
                low = middle;
            } else {
                high = middle;
            }
        }
        let stretch = self.list[low];
        if stretch.is_marked {
            (true, stretch.before + (number - stretch.start))
        } else {
            (false, stretch.before)
        }
    }

    /// The number of the marked position with `marks` marked ones before it in the run.
    pub(crate) fn number_at(&self, marks: u64) -> u64
        requires { marks < self.now.count }
        ensures number { result < run_size_in self.now.family self.now.block self.now.run }
        ensures mark { local_marks_in self.now.family self.now.block self.now.run result ≡ true }
        ensures marks { marks_below (local_marks_in self.now.family self.now.block self.now.run) result ≡ marks }
    {
        let mut low = 0;
        let mut high = self.list.len();
        while 1 < high - low {
            let middle = low + (high - low) / 2;
            if self.list[middle].before <= marks {
                low = middle;
            } else {
                high = middle;
            }
        }
        let stretch = self.list[low];
        stretch.start + (marks - stretch.before)
    }
}
