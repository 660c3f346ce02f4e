// The marks of a run whose lions both stand on column b, as stretches of places that are all marked or all not. The first digit
// in which a position differs from its mirror image decides for all places that have the same digits up to there, so that the
// stretches are few: some 2,700 where there are 4.8 million places.
ghost use Rattle.std.specs.Prelude.{◌≡◌, ◌<◌, ◌≤◌, ◌+◌, ◌%◌, ◌^◌, ℕ, Bool, IfOk};
ghost use Rattle.dob_rank.specs.Numbers.{product, block_bases};
ghost use Rattle.dob_rank.specs.Runs.{runs_in, run_size, run_kind, lion_pairs};
ghost use Rattle.dob_classes.specs.RunShapes.{IsShape};
ghost use Rattle.std.specs.List.{All};
ghost use Rattle.dob_classes.specs.Stretches.{AreStretches, IsGrowing, EndsWith, IsWidth, local_marks};
ghost use Rattle.dob_rank.specs.declared.runs.RunKind.TheVariants.{Mixed};

use crate::bits::image_places::image_place;
use crate::run_shapes::RunShape;
use dob_pieces::{Memory, PieceSet};
use dob_rank::runs::Spot;

/// A stretch of places of a run: where it begins, how many marked places of the run are before it, and whether its own are.
#[derive(Clone, Copy)]
pub(crate) struct Stretch {
    pub(crate) start: u64,
    pub(crate) before: u64,
    pub(crate) is_marked: bool,
}

/// Appends the entry of the places from one on, with `before` marks before it, unless the last entry's marks go on.
///
/// # Errors
///
/// `Memory`.
pub(crate) fn push_stretch(
    list: &mut Vec<Stretch>,
    start: u64,
    before: u64,
    is_marked: bool,
    last: bool,
) -> Result<(), Memory>
    ensures { (mark : ℕ → Bool) (end : ℕ) → IsGrowing mark start end before is_marked last list.old.items
        → IfOk result (λ _. AreStretches mark end list.new.items × EndsWith list.new.items is_marked) }
{
    if start == 0 || is_marked != last {
        list.push(Stretch {
            start,
            before,
            is_marked,
        })?;
    }
    Ok(())
}

/// Whether the places from one on are marked, and where that ends at the latest that one image shows.
pub(crate) fn stretch_from(
    set: PieceSet,
    block: u64,
    run: u64,
    local: u64,
    shape: &RunShape,
) -> (bool, u64)
    requires block { block < product (block_bases set) }
    requires run { run < runs_in set block }
    requires kind { run_kind (run % lion_pairs) ≡ Mixed }
    requires local { local < run_size set block }
    requires shape { IsShape set block run shape.now }
    ensures some { local < result.1 }
    ensures within { result.1 ≤ run_size set block }
    ensures marks { (k : ℕ) → local ≤ k → k < result.1 → local_marks set block run k ≡ result.0 }
{
    let other = image_place(set, block, Spot { run, local }, shape);
    let width = width_of(&shape.bases, local, other);
    (local <= other, (local / width + 1) * width)
}

// How many places have the same digits up to the first in which two numbers differ.
fn width_of(bases: &[u64; 6], local: u64, other: u64) -> u64
    requires positive { All (λ base. 0 < base) bases.now }
    requires fits { product bases.now < 2 ^ 64 }
    ensures { IsWidth bases.now local other result }
{
    let mut weight = 1;
    let mut width = 1;
    for i in (0..bases.len()).rev() {
        if local / weight != other / weight {
            width = weight;
        }
        weight *= bases[i];
    }
    width
}
