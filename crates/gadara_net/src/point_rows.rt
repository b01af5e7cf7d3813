// What is noted of each point: whether a lock is tried there, and which resources are held there.
ghost use Rattle.std.specs.Prelude.{◌≡◌, ℕ, Bool, false, ◌<◌, ◌≤◌, ◌||◌, ◌&&◌, ◌==◌, nat_lt, length, slice_get, slice_index, replicate, Some, IfOk};
ghost use Rattle.edges.specs.declared.Point.{Point as AnyPoint};
ghost use Rattle.net_laws.specs.Candidates.{members};
ghost use Rattle.net_laws.specs.Shown.{held_at, HaveCounts};
ghost use Rattle.weight_laws.specs.Flow.{is_try as is_try_of};
ghost use Rattle.gadara_net.specs.Flows.{IsFlow, flow_net};
ghost use Rattle.gadara_net.specs.PointRows.{AreTried, AreHeld, AreNoted};

use crate::flow::Flow;
use crate::graphs::with_target;
use edges::{Edge, EdgeOp, Point};
use std::alloc::{AllocError, Global};

/// For each point of a flow, whether a lock is tried there, and the set of the resources of which
/// a token is held there.
#[derive(Drop)]
pub struct PointRows {
    pub(crate) tried: Vec<bool>,
    pub(crate) held: Vec<u64>,
}

/// Whether a lock is tried.
fn is_try(op: EdgeOp) -> bool
    ensures { result ≡ is_try_of op }
{
    match op {
        EdgeOp::Try(_) => true,
        EdgeOp::Plain | EdgeOp::Acquire(_) | EdgeOp::Reacquire(_) | EdgeOp::Release(_) => false,
    }
}

/// Notes that a lock is tried at the point that an edge leaves, where this is so.
fn note_try(edge: Edge, tried: &mut [bool])
    requires { edge.from < length tried.old }
    ensures { (p : ℕ) (noted : Bool) → slice_get tried.old p ≡ Some noted →
        slice_get tried.new p ≡ Some (noted || (edge.from == p && is_try_of edge.op)) }
{
    if is_try(edge.op) {
        tried[edge.from as usize] = true;
    }
}

/// Notes each point at which a lock is tried. None is noted before.
fn note_tries(flow: &Flow, tried: &mut [bool])
    requires flow { IsFlow flow.now }
    requires none { tried.old ≡ replicate (length flow.now.points) false }
    ensures { AreTried (flow_net flow.now) tried.new }
{
    for edge in flow.edges.as_slice() {
        note_try(*edge, tried);
    }
}

/// For each point, whether a lock is tried there.
fn tried_points(alloc: Global, flow: &Flow) -> Result<Vec<bool>, AllocError>
    requires { IsFlow flow.now }
    ensures { IfOk result (λ tried. AreTried (flow_net flow.now) tried.items) }
{
    let mut tried = vec![in alloc; false; flow.points.len()]?;
    note_tries(flow, &mut tried);
    Ok(tried)
}

/// The set of the resources whose count isn't 0.
fn set_of(counts: &[u32]) -> u64
    requires { length counts.now ≤ 64 }
    ensures { (r : ℕ) → members result r ≡ nat_lt 0 (slice_index counts.now r) }
{
    let mut set = 0;
    for (r, count) in counts.iter().enumerate() {
        set = with_target(set, *count, r as u32);
    }
    set
}

/// For each point, the set of the resources of which a token is held there.
fn held_sets(alloc: Global, points: &[Point], resources: u32) -> Result<Vec<u64>, AllocError>
    requires few { resources ≤ 64 }
    requires counts { HaveCounts points.now resources }
    ensures each { IfOk result (λ sets. length sets.items ≡ length points.now) }
    ensures exact { IfOk result (λ sets. (p r : ℕ) → p < length points.now →
        members (slice_index sets.items p) r ≡ nat_lt 0 (held_at (slice_get points.now p) r)) }
{
    let _ = resources;
    let mut sets = Vec::with_capacity(alloc, points.len())?;
    for point in points {
        sets.push(set_of(point.held.as_slice()))?;
    }
    Ok(sets)
}

impl PointRows {
    /// What is noted of the points of a flow. The one error is want of memory.
    pub fn new(alloc: Global, flow: &Flow) -> Result<PointRows, AllocError>
        requires { IsFlow flow.now }
        ensures { IfOk result (λ rows. AreNoted rows flow.now) }
    {
        let tried = tried_points(alloc, flow)?;
        let resources = flow.tokens.len() as u32;
        let held = held_sets(alloc, flow.points.as_slice(), resources)?;
        Ok(PointRows { tried, held })
    }
}
