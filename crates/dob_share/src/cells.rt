// How cells are kept: 8 bytes a cell, and one pool with the distances of the counted wins of all cells. A cell's entries in
// the pool are a run with room for as many entries as the class has moves.
ghost use Rattle.std.specs.Prelude.{◌≡◌, ℕ, ◌<◌, ◌≤◌, ◌+◌, IfSome, length, MatchOption, slice_index_or};
ghost use Rattle.dob_distance.specs.Distances.{greater_of};
ghost use Rattle.dob_share.specs.Cells.{more_at, less_at, IsGreatestIn};
ghost use Rattle.dob_share.specs.Pools.{vacant, wins_in, IsWithin, IsCountedAt, ChangesRun};

use dob_lists::Segments;

/// A cell, less its counted wins. `start` is where its run in the pool begins. `win` is the distance of the win that the
/// least known loss of the enemy gives, one more than that loss; 0 if no loss is known. `used` is how many entries of
/// the run are in use, which are fewer than 64.
#[derive(Clone, Copy)]
pub(crate) struct CellHead {
    pub(crate) start: u32,
    pub(crate) win: u16,
    pub(crate) left: u8,
    pub(crate) used: u8,
}

/// The place of an entry of the slot's run that counts a win in that distance.
#[tactic(auto, using(crate::proofs::Keeping::wins_none, crate::proofs::Keeping::wins_some))]
pub(crate) fn counted_place(pool: &Segments<u16>, slot: CellHead, plies: u16) -> Option<usize>
    requires { slot.start + slot.used ≤ length pool.now }
    ensures wins { MatchOption result (wins_in pool.now slot.start slot.used plies ≡ 0) (λ _. 0 < wins_in pool.now slot.start slot.used plies) }
    ensures place { IfSome result (λ place. IsCountedAt pool.now slot.start slot.used plies place) }
{
    for offset in 0..slot.used {
        let place = slot.start as usize + offset as usize;
        if pool[place] == plies {
            return Some(place);
        }
    }
    None
}

/// The greatest distance that the slot's run counts.
pub(crate) fn greatest_win(pool: &Segments<u16>, slot: CellHead) -> Option<u16>
    requires { slot.start + slot.used ≤ length pool.now }
    ensures { IsGreatestIn (wins_in pool.now slot.start slot.used) result }
{
    let mut greatest = None;
    for offset in 0..slot.used {
        let plies = pool[slot.start as usize + offset as usize];
        greatest = Some(later(greatest, plies));
    }
    greatest
}

/// The greater of a distance, if there is one, and another.
pub(crate) fn later(greatest: Option<u16>, plies: u16) -> u16
    ensures { result ≡ greater_of greatest plies }
{
    match greatest {
        Some(other) => other.max(plies),
        None => plies,
    }
}

/// Counts one more win in that distance, behind the `used` entries of the run that begins there.
pub(crate) fn count_win(pool: &mut Segments<u16>, start: u32, used: u8, plies: u16)
    requires { start + used < length pool.old }
    ensures changes { ChangesRun start (used + 1) pool.old pool.new }
    ensures wins { (other : ℕ) → wins_in pool.new start (used + 1) other ≡ more_at plies (wins_in pool.old start used) other }
{
    let place = start as usize + used as usize;
    pool[place] = plies;
}

/// Counts a win in that distance in place of the greater one at that place of the slot's run.
pub(crate) fn count_better(pool: &mut Segments<u16>, slot: CellHead, place: usize, plies: u16)
    requires within { slot.start + slot.used ≤ length pool.old }
    requires place { IsWithin slot.start slot.used place }
    ensures changes { ChangesRun slot.start slot.used pool.old pool.new }
    ensures wins { (was : ℕ) → slice_index_or pool.old place vacant ≡ was → plies < was → (other : ℕ)
        → wins_in pool.new slot.start slot.used other ≡ more_at plies (less_at was (wins_in pool.old slot.start slot.used)) other }
{
    pool[place] = plies;
}
