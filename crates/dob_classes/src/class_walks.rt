// How many classes of a family stand between places of a run whose lions both stand on column b. A walk goes on from where it stands, so that counts up to
// many places, one after another, take no longer than the last of them.
ghost use Rattle.std.specs.Prelude.{◌≡◌, ◌<◌, ◌≤◌, ◌+◌, ◌%◌, ℕ};
ghost use Rattle.dob_rank.specs.Numbers.{product, block_bases};
ghost use Rattle.dob_rank.specs.Runs.{runs_in, run_size, run_kind, lion_pairs};
ghost use Rattle.dob_classes.specs.Stretches.{local_marks};
ghost use Rattle.dob_rank.specs.declared.runs.RunKind.TheVariants.{Mixed};

use crate::run_shapes::{RunShape, shape_of};
use crate::spots::count_before;
use crate::stretches::stretch_from;
use dob_pieces::Family;

/// A run of a family whose lions both stand on column b.
#[derive(Clone, Copy)]
pub struct MixedRun {
    pub family: Family,
    /// The number of its block, and its own number there.
    pub block: u64,
    pub run: u64,
    ghost within: { block < product (block_bases family.set) },
    ghost there: { run < runs_in family.set block },
    ghost kind: { run_kind (run % lion_pairs) ≡ Mixed },
}

/// Where a walk over a run's places stands: at `place`, before the position `number` of the family. The places from there up to an end are all of
/// representatives or all not.
#[derive(Clone, Copy)]
pub struct StretchCursor {
    pub place: u64,
    pub number: u64,
    pub end: u64,
    pub is_marked: bool,
}

impl MixedRun {
    ghost use Rattle.dob_classes.specs.RunShapes.{IsShape};
    ghost use Rattle.dob_classes.specs.Walks.{IsWalk, IsStretchIn, marks_before};

    /// A walk that begins at that place, or at the run's end.
    pub fn walk_from(&self, place: u64) -> StretchCursor
        requires { place ≤ run_size self.now.family.set self.now.block }
        ensures walk { IsWalk self.now result }
        ensures place { result.place ≡ place }
    {
        StretchCursor {
            place,
            number: count_before(self.family, self.block, self.run, place),
            end: place,
            is_marked: false,
        }
    }

    /// Walks on to that place, or to the run's end, and counts the representatives on the way.
    pub fn walk_to(&self, walk: &mut StretchCursor, place: u64) -> u64
        requires walk { IsWalk self.now walk.old }
        requires further { walk.old.place ≤ place }
        requires within { place ≤ run_size self.now.family.set self.now.block }
        ensures walk { IsWalk self.now walk.new }
        ensures place { walk.new.place ≡ place }
        ensures count { marks_before self.now walk.old.number + result ≡ marks_before self.now walk.new.number }
    {
        let shape = shape_of(self.family.set, self.block, self.run);
        let mut at = *walk;
        let mut count = 0;
        while at.place < place {
            let (next, more) = self.step(&shape, at, place);
            at = next;
            count += more;
        }
        *walk = at;
        count
    }

    /// One step further, by the run's shape, to the end of the places that are alike or to that place, and how many representatives stand on the way.
    pub(crate) fn step(
        &self,
        shape: &RunShape,
        walk: StretchCursor,
        place: u64,
    ) -> (StretchCursor, u64)
        requires shape { IsShape self.now.family.set self.now.block self.now.run shape.now }
        requires walk { IsWalk self.now walk }
        requires further { walk.place < place }
        requires within { place ≤ run_size self.now.family.set self.now.block }
        ensures walk { IsWalk self.now result.0 }
        ensures further { walk.place < result.0.place }
        ensures within { result.0.place ≤ place }
        ensures alike { IsStretchIn self.now.family self.now.block self.now.run walk.number result.0.number result.0.is_marked }
        ensures count { marks_before self.now walk.number + result.1 ≡ marks_before self.now result.0.number }
    {
        let (is_marked, end) = self.stretch_at(shape, walk);
        let to = end.min(place);
        let number = count_before(self.family, self.block, self.run, to);
        let count = if is_marked { number - walk.number } else { 0 };
        (
            StretchCursor {
                place: to,
                number,
                end,
                is_marked,
            },
            count,
        )
    }

    // Whether the places from the walk's own on are marked, and an end up to which they are alike.
    fn stretch_at(&self, shape: &RunShape, walk: StretchCursor) -> (bool, u64)
        requires shape { IsShape self.now.family.set self.now.block self.now.run shape.now }
        requires walk { IsWalk self.now walk }
        requires within { walk.place < run_size self.now.family.set self.now.block }
        ensures some { walk.place < result.1 }
        ensures marks { (k : ℕ) → walk.place ≤ k → k < result.1
            → local_marks self.now.family.set self.now.block self.now.run k ≡ result.0 }
    {
        if walk.place < walk.end {
            return (walk.is_marked, walk.end);
        }
        stretch_from(self.family.set, self.block, self.run, walk.place, shape)
    }
}
