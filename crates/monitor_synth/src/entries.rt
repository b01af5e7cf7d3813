// Entry weights.
ghost use Rattle.std.specs.Prelude.{◌≡◌, ℕ, ◌<◌, ◌≤◌, ◌⊎◌, length, slice_index, IfOk};
ghost use Rattle.gadara_net.specs.Flows.{flow_net};
ghost use Rattle.weight_laws.specs.Weights.{IsEntry};

use edges::Edge;
use gadara_net::{Net, Weights};
use sqlite_items::Items;
use std::alloc::{AllocError, Global};

/// Raises the number of the point that an edge leaves to the one behind it, where that is greater.
fn raise_to(edge: Edge, m: &[u64], entry: &mut [u64])
    requires from { edge.from < length entry.old }
    requires to { edge.to < length m.now }
    ensures grown { (p : ℕ) → slice_index entry.old p ≤ slice_index entry.new p }
    ensures behind { slice_index m.now edge.to ≤ slice_index entry.new edge.from }
    ensures met { (p : ℕ) → (slice_index entry.new p ≡ slice_index entry.old p) ⊎
        ((edge.from ≡ p) × (slice_index entry.new p ≡ slice_index m.now edge.to)) }
{
    let behind = m[edge.to as usize];
    let from = edge.from as usize;
    if entry[from] < behind {
        entry[from] = behind;
    }
}

/// Raises the number of each point, its moved weight, to its entry weight.
fn raise_each(n: &Net, m: &[u64], entry: &mut [u64])
    requires each { length m.now ≡ length n.now.points }
    requires own { entry.old ≡ m.now }
    ensures { IsEntry (flow_net n.now) (slice_index m.now) (slice_index entry.new) }
{
    n.keeps_flow();
    for k in 0..n.edges() {
        raise_to(n.edge(k), m, entry);
    }
}

/// The entry weight of each point: the greatest of the moved weights at it and at the points that
/// its edges lead to. Before a point as many tokens of the monitor are taken as its entry weight is
/// above its moved weight, and along an edge as many are given back as the entry weight is above
/// the moved weight behind it.
///
/// `m` has one number for each point of the net. The one error is want of memory.
pub fn entry(alloc: Global, n: &Net, m: &Weights) -> Result<Weights, AllocError>
    requires { length m.now ≡ length n.now.points }
    ensures each { IfOk result (λ entry. length entry ≡ length n.now.points) }
    ensures entry { IfOk result
        (λ entry. IsEntry (flow_net n.now) (slice_index m.now) (slice_index entry)) }
{
    let mut entry = Vec::from_slice(alloc, m.as_slice())?;
    raise_each(n, m.as_slice(), &mut entry);
    Ok(Items::from_vec(entry))
}
