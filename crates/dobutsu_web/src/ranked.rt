// A certificate's list of lost classes by the ranks of their representatives: a rank is found by arithmetic where a class number would need tables, so the
// list is searched without memory of one's own.
ghost use Rattle.std.specs.Prelude.{◌≡◌, ◌≢◌, ◌-◌, ◌<◌, ◌↔◌, ℕ, IsTrue, MatchOption, length, slice_index};
ghost use Rattle.std.specs.List.Sorted.{IsStrictlyIncreasing};
ghost use Rattle.dob_rank.specs.Families.{IsPositionOf, size_of, rank_of};
ghost use Rattle.dob_pieces.specs.declared.setup.Setup.{Setup as AnySetup};
ghost use Rattle.dob_rank.specs.Order.{IsFirstOfTwo, RepresentativeOf};
ghost use Rattle.dobutsu_web.specs.Ranked.{AreRanksIn, IsRankAt, entries_in, ranked_setup};

use dob_certificate::Lookup;
use dob_moves::PositionBoard;
use dob_pieces::{Family, Position};
use dob_rank::{rank, size, unrank};

/// The ranks of the representatives of a family's classes, ascending, and within how many plies each class is said to be lost.
#[derive(Clone, Copy)]
pub(crate) struct Listed<'a> {
    pub(crate) family: Family,
    pub(crate) ranks: &'a [u32],
    pub(crate) plies: &'a [u16],
}

/// Whether each rank is a representative's, above the one before, and has its plies.
pub(crate) fn are_ranks(listed: &Listed) -> bool
    ensures { IsTrue result ↔ AreRanksIn listed.now }
{
    if listed.plies.len() != listed.ranks.len() {
        return false;
    }
    let count = size(listed.family);
    for place in 0..listed.ranks.len() {
        if !is_rank_at(listed.family, listed.ranks, count, place) {
            return false;
        }
    }
    true
}

// Whether at that place stands the rank of a representative, above the one before; the family has that many positions.
fn is_rank_at(family: Family, ranks: &[u32], count: u64, place: usize) -> bool
    requires within { place < length ranks.now }
    requires count { count ≡ size_of family }
    ensures { IsTrue result ↔ IsRankAt family ranks.now place }
{
    let here = u64::from(ranks[place]);
    if here >= count || !is_above(ranks, place) {
        return false;
    }
    is_first(family, here)
}

// Whether the rank at that place is above the one before.
fn is_above(ranks: &[u32], place: usize) -> bool
    requires { place < length ranks.now }
    ensures { IsTrue result ↔ (0 < place → slice_index ranks.now (place - 1) < slice_index ranks.now place) }
{
    place == 0 || ranks[place - 1] < ranks[place]
}

// Whether the position of that rank is a representative.
fn is_first(family: Family, here: u64) -> bool
    requires { here < size_of family }
    ensures { IsTrue result ↔ IsFirstOfTwo (ranked_setup family here) }
{
    let position = unrank(family, here);
    rank_of_earlier(family, &position) == here
}

// The rank of the earlier of a position and its mirror image.
fn rank_of_earlier(family: Family, position: &Position) -> u64
    requires { IsPositionOf family position.now.setup }
    ensures { (earlier : AnySetup) × RepresentativeOf position.now.setup earlier × IsPositionOf family earlier × (result ≡ rank_of family earlier) }
{
    let own = rank(family.profile, position);
    let image = position.mirrored();
    let other = rank(family.profile, &image);
    if other < own { other } else { own }
}

impl Lookup for Listed<'_> {
    ghost stands = { λ listed family. (listed.family ≡ family) × AreRanksIn listed };

    ghost entries_of = { λ listed. entries_in listed };

    fn plies_for(&self, family: Family, position: &PositionBoard) -> Option<u16> {
        let earlier = rank_of_earlier(family, &position.position());
        match place_of(self.ranks, earlier) {
            Some(place) => Some(self.plies[place]),
            None => None,
        }
    }

    fn count(&self) -> usize {
        self.ranks.len()
    }

    fn entry_at(&self, _family: Family, place: usize) -> Option<(PositionBoard, u16)> {
        let position = PositionBoard::of(&position_at(self, place));
        Some((position, plies_at(self, place)))
    }
}

// The representative of the class at that place.
fn position_at(listed: &Listed, place: usize) -> Position
    requires ranks { AreRanksIn listed.now }
    requires within { place < length listed.now.ranks.now }
    ensures { result.setup ≡ ranked_setup listed.now.family (slice_index listed.now.ranks.now place) }
{
    unrank(listed.family, u64::from(listed.ranks[place]))
}

fn plies_at(listed: &Listed, place: usize) -> u16
    requires ranks { AreRanksIn listed.now }
    requires within { place < length listed.now.ranks.now }
    ensures { result ≡ slice_index listed.now.plies.now place }
{
    listed.plies[place]
}

// The place of a rank, or `None` if it isn't there. A binary search.
fn place_of(ranks: &[u32], rank: u64) -> Option<usize>
    requires { IsStrictlyIncreasing ranks.now }
    ensures { MatchOption result
        ((place : ℕ) → place < length ranks.now → slice_index ranks.now place ≢ rank)
        (λ place. (place < length ranks.now) × (slice_index ranks.now place ≡ rank)) }
{
    match ranks.binary_search_by_key(&rank, |other: &u32| *other as u64) {
        Ok(place) => Some(place),
        Err(_) => None,
    }
}
