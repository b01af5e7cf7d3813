// What is asked of one edge.
ghost use Rattle.std.specs.Prelude.{◌≡◌, ℕ, ◌+◌, ◌<◌, ◌≤◌, ◌↔◌, IsTrue, length, slice_index};
ghost use Rattle.edges.specs.Ops.{takes, gives};
ghost use Rattle.gadara_net.specs.Flows.{flow_net};
ghost use Rattle.net_laws.specs.Net.{one};
ghost use Rattle.net_laws.specs.Shown.{HaveCounts};
ghost use Rattle.flow_checks.specs.Checks.{IsNamed, IsOnlyEdge, IsSole, IsEdgeOf};

use edges::{Edge, EdgeOp};
use gadara_net::Flow;

/// Whether the resource of an operation is below their number.
fn is_named(op: EdgeOp, resources: u32) -> bool
    ensures { IsTrue result ↔ IsNamed op resources }
{
    match op {
        EdgeOp::Plain => true,
        EdgeOp::Acquire(r) | EdgeOp::Try(r) | EdgeOp::Reacquire(r) | EdgeOp::Release(r) => {
            r < resources
        }
    }
}

/// 1 for yes, and 0 for no.
fn number_of(yes: bool) -> u64
    ensures { result ≡ one yes }
{
    if yes { 1 } else { 0 }
}

/// Whether what is held behind an edge is what was held before it, by what the edge takes and gives.
fn accounts(op: EdgeOp, before: &[u32], behind: &[u32]) -> bool
    requires few { length before.now ≤ 64 }
    requires same { length behind.now ≡ length before.now }
    ensures { IsTrue result ↔ ((r : ℕ) → r < length before.now → slice_index behind.now r + one (gives op r) ≡ slice_index before.now r + one (takes op r)) }
{
    for r in 0..before.len() {
        let given = number_of(op.gives(r as u32));
        let taken = number_of(op.takes(r as u32));
        if u64::from(behind[r]) + given != u64::from(before[r]) + taken {
            return false;
        }
    }
    true
}

/// Whether two edges are the same.
fn are_same(one: Edge, other: Edge) -> bool
    ensures { IsTrue result ↔ (one ≡ other) }
{
    one == other
}

/// Whether each edge that leaves the same point is equal to this one.
fn is_only_edge(edges: &[Edge], edge: Edge) -> bool
    ensures { IsTrue result ↔ IsOnlyEdge edges.now edge }
{
    for other in edges {
        if other.from == edge.from && !are_same(*other, edge) {
            return false;
        }
    }
    true
}

/// Whether an edge at which a thread may be blocked is the only one of its point.
fn is_sole(edges: &[Edge], edge: Edge) -> bool
    ensures { IsTrue result ↔ IsSole edges.now edge }
{
    match edge.op {
        EdgeOp::Acquire(_) | EdgeOp::Reacquire(_) => is_only_edge(edges, edge),
        EdgeOp::Plain | EdgeOp::Try(_) | EdgeOp::Release(_) => true,
    }
}

/// Whether an edge leads between points of the flow, and takes and gives what they say.
pub fn is_edge_of(flow: &Flow, edge: Edge) -> bool
    requires counts { HaveCounts flow.now.points (length flow.now.tokens) }
    requires few { length flow.now.tokens ≤ 64 }
    ensures { IsTrue result ↔ IsEdgeOf (flow_net flow.now) edge }
{
    let before = flow.points.get(edge.from as usize);
    let behind = flow.points.get(edge.to as usize);
    match (before, behind) {
        (Some(before), Some(behind)) => {
            is_named(edge.op, flow.tokens.len() as u32)
                && accounts(edge.op, before.held.as_slice(), behind.held.as_slice())
                && is_sole(flow.edges.as_slice(), edge)
        }
        _ => false,
    }
}
