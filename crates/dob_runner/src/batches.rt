// Which batches are a node's to work in, and whether the one in its slot is.
ghost use Rattle.std.specs.Prelude.{◌≡◌, ◌↔◌, ℕ, IsTrue, MatchOption};
ghost use Rattle.dob_runner.specs.Batches.{IsBatchFor, HoldsFor};

use dob_endpoint::Inlet;
use dob_pieces::{Family, PieceSet, Profile};
use dob_safra::NodeCount;
use dob_update::Batch;

// The sender of the batch in the inlet's slot, if that is one that another node cut for the node `to` of that family, one of `nodes`. Any
// other batch is none of the node's.
pub(crate) fn sender_for(
    inlet: &Inlet,
    family: Family,
    nodes: NodeCount,
    to: usize,
) -> Option<usize>
    ensures { MatchOption result ((from : ℕ) → ¬ HoldsFor family nodes from to inlet.now) (λ from. HoldsFor family nodes from to inlet.now) }
{
    let Some(batch) = &inlet.slot else {
        return None;
    };
    let from = batch.from();
    if from == to {
        return None;
    }
    if !is_for(batch, family, nodes, to) {
        return None;
    }
    Some(from)
}

// Whether the batch is one of the family among `nodes` nodes, for that node.
fn is_for(batch: &Batch, family: Family, nodes: NodeCount, to: usize) -> bool
    ensures { IsTrue result ↔ IsBatchFor family nodes to batch.now }
{
    is_one_family(batch.family(), family) && batch.nodes() == nodes.get() && batch.to() == to
}

// Whether the two are one family.
fn is_one_family(family: Family, other: Family) -> bool
    ensures { IsTrue result ↔ (family ≡ other) }
{
    is_one_set(family.set, other.set) && is_one_profile(family.profile, other.profile)
}

// Whether the two are one piece set.
fn is_one_set(set: PieceSet, other: PieceSet) -> bool
    ensures { IsTrue result ↔ (set ≡ other) }
{
    set == other
}

// Whether the two are one profile.
fn is_one_profile(profile: Profile, other: Profile) -> bool
    ensures { IsTrue result ↔ (profile ≡ other) }
{
    match (profile, other) {
        (Profile::A, Profile::A) | (Profile::B, Profile::B) => true,
        _ => false,
    }
}
