// Who holds what and takes what: arcs between resources, a row of targets for each.
ghost use Rattle.std.specs.Prelude.{◌≡◌, ℕ, ◌<◌, ◌≤◌, Bool, ◌||◌, ◌&&◌, ◌==◌, ◌⊎◌, ◌↔◌, nat_lt, length, slice_index, IsTrue, IsFalse};
ghost use Rattle.edges.specs.Ops.{takes};
ghost use Rattle.net_laws.specs.Net.{HasEdge};
ghost use Rattle.net_laws.specs.Candidates.{members, arc};
ghost use Rattle.gadara_net.specs.Flows.{IsFlow, flow_net};
ghost use Rattle.gadara_net.specs.Graphs.{has_arc, IsTaken, IsReached};

use crate::flow::Flow;
use crate::sets::{is_member, union, with_member};
use edges::{Edge, EdgeOp};

/// The resource of which a token is taken.
fn taken(op: EdgeOp) -> Option<u32>
    ensures { IsTaken op result }
{
    match op {
        EdgeOp::Acquire(r) | EdgeOp::Try(r) | EdgeOp::Reacquire(r) => Some(r),
        EdgeOp::Plain | EdgeOp::Release(_) => None,
    }
}

/// The row with one more target, where tokens are held.
pub fn with_target(row: u64, held: u32, target: u32) -> u64
    requires { target < 64 }
    ensures { (s : ℕ) → members result s ≡ (members row s || (nat_lt 0 held && target == s)) }
{
    if held == 0 {
        return row;
    }
    with_member(row, target)
}

/// Adds a target to the row of each resource that is held.
fn add_target(held: &[u32], target: u32, rows: &mut [u64])
    requires rows { length rows.old ≡ 64 }
    requires few { length held.now ≤ 64 }
    requires target { target < 64 }
    ensures { (r s : ℕ) → r < 64 → has_arc rows.new r s ≡
        (has_arc rows.old r s || (nat_lt 0 (slice_index held.now r) && target == s)) }
{
    for (r, count) in held.iter().enumerate() {
        rows[r] = with_target(rows[r], *count, target);
    }
}

/// Adds the arcs of an edge: from each resource held where it begins to the one that it takes.
fn add_arcs(flow: &Flow, edge: Edge, rows: &mut [u64])
    requires flow { IsFlow flow.now }
    requires edge { HasEdge (flow_net flow.now) edge }
    requires rows { length rows.old ≡ 64 }
    ensures { (r s : ℕ) → r < 64 → has_arc rows.new r s ≡
        (has_arc rows.old r s || (nat_lt 0
        ((flow_net flow.now).held edge.from r) && takes edge.op s)) }
{
    if let Some(target) = taken(edge.op) {
        add_target(
            flow.points.as_slice()[edge.from as usize].held.as_slice(),
            target,
            rows,
        );
    }
}

/// The arcs of hold-and-wait.
pub fn arcs(flow: &Flow) -> [u64; 64]
    requires { IsFlow flow.now }
    ensures { (r s : ℕ) → r < 64 → has_arc result r s ≡ arc (flow_net flow.now) r s }
{
    let mut rows = [0; 64];
    for edge in flow.edges.as_slice() {
        add_arcs(flow, *edge, &mut rows);
    }
    rows
}

/// The row with that of a resource joined to it, where it leads to that resource.
fn with_next(row: u64, through: u32, next: u64) -> u64
    requires { through < 64 }
    ensures { (s : ℕ) → members result s ≡ (members row s ||
        (members row through && members next s)) }
{
    if !is_member(row, through) {
        return row;
    }
    union(row, next)
}

/// Joins what is reached through a resource.
fn join_through(through: u32, rows: &mut [u64])
    requires rows { length rows.old ≡ 64 }
    requires through { through < 64 }
    ensures { (r s : ℕ) → r < 64 → has_arc rows.new r s ≡
        (has_arc rows.old r s || (has_arc rows.old r through && has_arc rows.old through s)) }
{
    let next = rows[through as usize];
    for row in rows.iter_mut() {
        *row = with_next(*row, through, next);
    }
}

/// Leaves in each row all that is reached from its resource by one or more arcs (Warshall, A
/// Theorem on Boolean Matrices).
pub fn join_all(rows: &mut [u64])
    requires rows { length rows.old ≡ 64 }
    requires below { (r s : ℕ) → r < 64 → IsTrue (has_arc rows.old r s) → s < 64 }
    ensures { (r s : ℕ) → r < 64 → IsTrue (has_arc rows.new r s) ↔ IsReached rows.old r s }
{
    let count = rows.len() as u32;
    for through in 0..count {
        join_through(through, rows);
    }
}

/// The resources that are reached from this one and from which it is reached, and itself.
pub fn mutual(rows: &[u64], resource: u32) -> u64
    requires rows { length rows.now ≡ 64 }
    requires resource { resource < 64 }
    ensures { (s : ℕ) → IsTrue (members result s) ↔
        ((resource ≡ s) ⊎ ((s < 64) × IsTrue (has_arc rows.now resource s) ×
        IsTrue (has_arc rows.now s resource))) }
{
    let mut found = with_member(0, resource);
    for s in 0..64 {
        found = with_mutual(found, rows, resource, s);
    }
    found
}

/// The set with a resource that is reached from the other one and from which that is reached.
fn with_mutual(found: u64, rows: &[u64], resource: u32, other: u32) -> u64
    requires rows { length rows.now ≡ 64 }
    requires resource { resource < 64 }
    requires other { other < 64 }
    ensures { (s : ℕ) → members result s ≡ (members found s ||
        (has_arc rows.now resource other && has_arc rows.now other resource && other == s)) }
{
    let there = is_member(rows[resource as usize], other);
    let back = is_member(rows[other as usize], resource);
    if !(there && back) {
        return found;
    }
    with_member(found, other)
}
