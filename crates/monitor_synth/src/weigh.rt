// Weights of points for a set of resources.
ghost use Rattle.std.specs.Prelude.{◌≡◌, ℕ, ◌-◌, ◌*◌, ◌<◌, ◌≤◌, ◌^◌, length, slice_index, sum_by, All, IfOk, IsTrue, if◌then◌else◌};
ghost use Rattle.net_laws.specs.Candidates.{members};
ghost use Rattle.net_laws.specs.Lines.{total, tokens_of};
ghost use Rattle.net_laws.specs.Net.{one};
ghost use Rattle.gadara_net.specs.Flows.{NamesResources, flow_net};
ghost use Rattle.monitor_synth.specs.Weighed.{AreWeights};

use gadara_net::sets::{have_common, is_member};
use gadara_net::{Net, Weights, Work};
use place_sets::{BitRow, PlaceSet};
use sqlite_items::Items;
use std::alloc::{AllocError, Global};

/// The members of a set that are resources of the net.
fn members_of(alloc: Global, n: &Net, resources: u64) -> Result<Vec<u32>, AllocError>
    ensures below { IfOk result (λ list. All (λ r. r < length n.now.tokens) list.items) }
    ensures few { IfOk result (λ list. length list.items ≤ 64) }
    ensures named { IfOk result
        (λ list. All (λ r. IsTrue (members resources r)) list.items) }
    ensures sums { IfOk result (λ list. (f : ℕ → ℕ) →
        sum_by f list.items ≡ total (length n.now.tokens) (members resources) f) }
{
    n.keeps_flow();
    let mut list = Vec::new(alloc);
    for r in 0..n.resources() {
        if is_member(resources, r) {
            list.push(r)?;
        }
    }
    Ok(list)
}

/// How many tokens of the listed resources are held at a point.
fn held_at(n: &Net, list: &[u32], point: u32) -> u64
    requires point { point < length n.now.points }
    requires below { All (λ r. r < length n.now.tokens) list.now }
    requires few { length list.now ≤ 64 }
    ensures { result ≡ sum_by (λ r. (flow_net n.now).held point r) list.now }
{
    let mut sum = 0;
    for r in list {
        sum += u64::from(n.held(point, *r));
    }
    sum
}

/// The same of a set, whose members are listed: nothing where the point holds none of them.
fn held_of(n: &Net, resources: u64, list: &[u32], point: u32) -> u64
    requires point { point < length n.now.points }
    requires below { All (λ r. r < length n.now.tokens) list.now }
    requires few { length list.now ≤ 64 }
    requires named { All (λ r. IsTrue (members resources r)) list.now }
    ensures { result ≡ sum_by (λ r. (flow_net n.now).held point r) list.now }
{
    if !have_common(n.held_set(point), resources) {
        return 0;
    }
    held_at(n, list, point)
}

/// What is held, and one less inside the least siphon.
fn weight_of(held: u64, inside: bool) -> u64
    ensures { result ≡ held - one inside }
{
    if inside { held.saturating_sub(1) } else { held }
}

/// For each point what it holds of the listed resources, and one less where it is in the siphon.
fn weigh<S: PlaceSet>(
    alloc: Global,
    n: &Net,
    resources: u64,
    list: &[u32],
    siphon: &S,
) -> Result<Weights, AllocError>
    requires below { All (λ r. r < length n.now.tokens) list.now }
    requires few { length list.now ≤ 64 }
    requires named { All (λ r. IsTrue (members resources r)) list.now }
    requires bound { length n.now.points ≤ S.bound siphon.now }
    ensures each { IfOk result (λ w. length w ≡ length n.now.points) }
    ensures weights { IfOk result (λ w. (p : ℕ) → p < length n.now.points → slice_index w p ≡
        sum_by (λ r. (flow_net n.now).held p r) list.now - one (S.places siphon.now p)) }
{
    let mut weights = Vec::with_capacity(alloc, n.points() as usize)?;
    for p in 0..n.points() {
        weights.push(weight_of(held_of(n, resources, list, p), siphon.has(p)))?;
    }
    Ok(Items::from_vec(weights))
}

/// The weight of each point for a set of resources: how many tokens of the set it holds, and one
/// less in the set's least siphon, where it holds at least one.
///
/// `resources` names resources of the net. The one error is want of memory. (Moody and Antsaklis,
/// Supervisory Control of Discrete Event Systems Using Petri Nets.)
pub fn weights(alloc: Global, n: &Net, resources: u64) -> Result<Weights, AllocError>
    requires { NamesResources n.now resources }
    ensures each { IfOk result (λ w. length w ≡ length n.now.points) }
    ensures weights { IfOk result
        (λ w. AreWeights (flow_net n.now) (members resources) (slice_index w)) }
{
    n.keeps_flow();
    let list = members_of(alloc, n, resources)?;
    let mut work = Work::new(alloc, n.points())?;
    let mut siphon = BitRow::empty(alloc, n.places())?;
    n.least_siphon(resources, &mut siphon, &mut work);
    weigh(alloc, n, resources, &list, &siphon)
}

/// The tokens of a resource where it is in the set, or 0.
fn tokens_if(n: &Net, resources: u64, r: u32) -> u64
    requires resource { r < length n.now.tokens }
    requires few { r < 64 }
    ensures value { result ≡ (if members resources r then (flow_net n.now).tokens r else 0) }
    ensures small { result < 2 ^ 32 }
{
    if is_member(resources, r) {
        u64::from(n.tokens(r))
    } else {
        0
    }
}

/// One less than the tokens of a set of resources, or 0 for a set without any: the capacity of a
/// monitor for the set.
pub fn capacity(n: &Net, resources: u64) -> u64
    ensures { result ≡ tokens_of (flow_net n.now) (members resources) - 1 }
{
    n.keeps_flow();
    let mut sum = 0;
    for r in 0..n.resources() {
        sum += tokens_if(n, resources, r);
    }
    sum.saturating_sub(1)
}
