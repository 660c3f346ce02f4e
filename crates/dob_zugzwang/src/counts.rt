// How many pairs there are, and the deepest one.
ghost use Rattle.std.specs.Prelude.{◌≡◌, ◌↔◌, [], ◌∷◌, ◌++◌, List, Some, count_by, max, min, true};
ghost use Rattle.dob_zugzwang.specs.Counts.{AreCounts, IsDeeper, IsDeepest, is_loss_and_draw, is_lost_by_both, longer, shorter};
ghost use Rattle.dob_zugzwang.specs.declared.pairs.Zugzwang.{Zugzwang as Pair};

use crate::pairs::Zugzwang;
use dob_value::Value;

/// How many pairs are lost by both sides, by whichever has to move, and how many by one where the other draws.
#[derive(Clone, Copy)]
pub struct PairCounts {
    pub lost_by_both: u64,
    pub loss_and_draw: u64,
    /// Of those lost by both the deepest: its shorter loss is the longest; among equal ones its longer loss is; and among those that
    /// are equal in both its class number is the lowest.
    pub deepest: Option<Zugzwang>,
}

/// The counts of the pairs.
pub fn count_pairs(pairs: &[Zugzwang]) -> PairCounts
    ensures { AreCounts pairs.now result }
{
    PairCounts {
        lost_by_both: lost_by_both(pairs),
        loss_and_draw: loss_and_draw(pairs),
        deepest: deepest(pairs),
    }
}

// How many pairs are lost by both.
fn lost_by_both(pairs: &[Zugzwang]) -> u64
    ensures { result ≡ count_by is_lost_by_both pairs.now }
{
    pairs.iter().filter(|pair| is_lost_by_both(pair)).count() as u64
}

// How many are lost by one where the other draws.
fn loss_and_draw(pairs: &[Zugzwang]) -> u64
    ensures { result ≡ count_by is_loss_and_draw pairs.now }
{
    pairs.iter().filter(|pair| is_loss_and_draw(pair)).count() as u64
}

// Whether whoever has to move loses.
fn is_lost_by_both(pair: &Zugzwang) -> bool
    ensures { result ≡ is_lost_by_both pair.now }
{
    match (pair.value, pair.turn_value) {
        (Value::Loss(_), Value::Loss(_)) => true,
        _ => false,
    }
}

// Whether the one side loses where it has to move, and the other draws.
fn is_loss_and_draw(pair: &Zugzwang) -> bool
    ensures { result ≡ is_loss_and_draw pair.now }
{
    match (pair.value, pair.turn_value) {
        (Value::Loss(_), Value::Draw) | (Value::Draw, Value::Loss(_)) => true,
        _ => false,
    }
}

// The deepest of those that are lost by both, if there is one.
fn deepest(pairs: &[Zugzwang]) -> Option<Zugzwang>
    ensures { IsDeepest pairs.now result }
{
    let mut best = None;
    for pair in pairs {
        best = with_pair(best, *pair);
    }
    best
}

// The deepest with one pair more.
fn with_pair(best: Option<Zugzwang>, pair: Zugzwang) -> Option<Zugzwang>
    ensures { (done : List Pair) → IsDeepest done best → IsDeepest (done ++ pair ∷ []) result }
{
    if !is_lost_by_both(&pair) {
        return best;
    }
    let Some(other) = best else {
        return Some(pair);
    };
    if is_deeper(&pair, &other) {
        Some(pair)
    } else {
        best
    }
}

// Whether the pair is deeper than the other.
fn is_deeper(pair: &Zugzwang, other: &Zugzwang) -> bool
    ensures { (result ≡ true) ↔ IsDeeper pair.now other.now }
{
    if shorter(pair) != shorter(other) {
        shorter(pair) > shorter(other)
    } else if longer(pair) != longer(other) {
        longer(pair) > longer(other)
    } else {
        pair.class < other.class
    }
}

// The lesser of the pair's two distances.
fn shorter(pair: &Zugzwang) -> u16
    ensures { result ≡ shorter pair.now }
{
    pair.value.plies().min(pair.turn_value.plies())
}

// The greater of the pair's two distances.
fn longer(pair: &Zugzwang) -> u16
    ensures { result ≡ longer pair.now }
{
    pair.value.plies().max(pair.turn_value.plies())
}
