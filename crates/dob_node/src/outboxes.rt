// The outboxes of a node, one for each node: what it has still to send.
ghost use Rattle.std.specs.Prelude.{◌≡◌, ◌≢◌, ℕ, ◌<◌, ◌≤◌, ◌↔◌, [], length, vec_len, slice_index_or};
ghost use Rattle.std.specs.Prelude.{slice_set, IsTrue, IfOk, OnOk};
ghost use Rattle.std.specs.List.{All};
ghost use Rattle.dob_pieces.specs.declared.profile.Family.{Family as Set};
ghost use Rattle.dob_unmove.specs.Edges.{predecessors};
ghost use Rattle.dob_share.specs.Items.{items_of};
ghost use Rattle.dob_update.specs.Batches.{OutboxState, empty_outbox, added};
ghost use Rattle.dob_node.specs.Outboxes.{outbox_in, sends_of, IsOutboxTo, AreAdded, HaveRoom};

use dob_pieces::{Family, Memory};
use dob_safra::NodeCount;
use dob_share::News;
use dob_update::Outbox;
use std::alloc::Global;

/// Outboxes with nothing to send, of node `from` among `nodes`, for each node.
pub(crate) fn empty_outboxes(
    alloc: Global,
    family: Family,
    nodes: NodeCount,
    from: usize,
) -> Result<Vec<Outbox>, Memory>
    ensures whole { IfOk result (λ list. length list.items ≡ nodes) }
    ensures empty { IfOk result (λ list. (to : ℕ) → outbox_in family nodes from (sends_of list.items) to ≡ empty_outbox family nodes from to) }
{
    let count = nodes.get();
    let mut outboxes = Vec::with_capacity(alloc, count)?;
    for to in 0..count {
        outboxes.push(Outbox::new(alloc, family, count, from, to))?;
    }
    Ok(outboxes)
}

/// Makes room in the outbox for each node but `from` for so many items of one settlement.
///
/// # Errors
///
/// `Memory`, which leaves all that is to be sent as it was.
pub(crate) fn reserve_for_others(
    outboxes: &mut Vec<Outbox>,
    items: usize,
    from: usize,
) -> Result<(), Memory>
    ensures sends { sends_of outboxes.new.items ≡ sends_of outboxes.old.items }
    ensures room { OnOk result (HaveRoom items from (length outboxes.new.items) outboxes.new.items) }
{
    let nodes = outboxes.len();
    for to in 0..nodes {
        if to != from {
            reserve_at(outboxes, to, items)?;
        }
    }
    Ok(())
}

// Makes room in the outbox for a node.
fn reserve_at(outboxes: &mut Vec<Outbox>, to: usize, items: usize) -> Result<(), Memory>
    requires { to < vec_len outboxes.old }
    ensures sends { sends_of outboxes.new.items ≡ sends_of outboxes.old.items }
    ensures others { (other : ℕ) (default : OutboxState) → other ≢ to → slice_index_or outboxes.new.items other default ≡ slice_index_or outboxes.old.items other default }
    ensures room { OnOk result ((default : OutboxState) → items ≤ (slice_index_or outboxes.new.items to default).room) }
{
    let outbox = &mut outboxes[to];
    outbox.reserve(items)
}

/// Adds a settlement to the outbox for each node but `from`, with its items for that node; `targets` are the classes
/// with a move into the settled one, and there is room for an item of each.
pub(crate) fn add_for_others(outboxes: &mut Vec<Outbox>, news: &News, targets: &[u64], from: usize)
    requires addressed { let n = length (sends_of outboxes.old.items) in (family : Set) × (targets.now ≡ predecessors family news.now.class) × ((to : ℕ) → IsOutboxTo family n from to (outbox_in family n from (sends_of outboxes.old.items) to)) }
    requires room { HaveRoom (length targets.now) from (length outboxes.old.items) outboxes.old.items }
    ensures { let n = length (sends_of outboxes.old.items) in AreAdded targets.now news.now n from n (sends_of outboxes.old.items) (sends_of outboxes.new.items) }
{
    let nodes = outboxes.len();
    for to in 0..nodes {
        if to != from {
            add_to(outboxes, to, news, targets);
        }
    }
}

// Adds a settlement with its items to the outbox for a node, which has room for them.
fn add_to(outboxes: &mut Vec<Outbox>, to: usize, news: &News, targets: &[u64])
    requires there { to < vec_len outboxes.old }
    requires of { (default : OutboxState) → let outbox = slice_index_or outboxes.old.items to default in (outbox.sends.n ≡ vec_len outboxes.old) × (outbox.sends.to ≡ to) × (targets.now ≡ predecessors outbox.sends.family news.now.class) × (length targets.now ≤ outbox.room) }
    ensures { (outbox : OutboxState) × (outboxes.new.items ≡ slice_set outboxes.old.items to outbox) × ((default : OutboxState) → outbox.sends ≡ added (slice_index_or outboxes.old.items to default).sends news.now (items_of (λ _. targets.now) (vec_len outboxes.old) to news.now)) }
{
    let outbox = &mut outboxes[to];
    outbox.add_targets(news, targets);
}

/// Whether nothing is left to send.
pub(crate) fn are_empty(outboxes: &[Outbox]) -> bool
    ensures { IsTrue result ↔ All (λ (o : OutboxState). o.sends.items ≡ []) outboxes.now }
{
    outboxes.iter().all(|outbox| outbox.is_empty())
}
