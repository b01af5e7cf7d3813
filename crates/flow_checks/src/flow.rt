// What is asked of a flow.
ghost use Rattle.std.specs.Prelude.{◌≡◌, ℕ, ◌<◌, ◌≤◌, ◌↔◌, IsTrue, length};
ghost use Rattle.gadara_net.specs.Flows.{IsFlow, flow_net};
ghost use Rattle.net_laws.specs.Shown.{HaveCounts};
ghost use Rattle.flow_checks.specs.Checks.{IsSmall, AreResources, ArePoints, ArePlaces, AreEdges};

use crate::edge::is_edge_of;
use crate::point::{are_tokens, is_point_of};
use gadara_net::Flow;

/// Whether the numbers of resources, points and edges are small.
fn is_small(flow: &Flow) -> bool
    ensures { IsTrue result ↔ IsSmall flow.now }
{
    let resources = flow.tokens.len();
    flow.mutexes as usize <= resources
        && resources <= 64
        && flow.points.len() < u32::MAX as usize + 1 - resources
        && flow.edges.len() <= u32::MAX as usize
}

/// Whether each point is one of the flow.
fn are_points(flow: &Flow) -> bool
    ensures { IsTrue result ↔ ArePoints flow.now }
{
    for point in flow.points.as_slice() {
        if !is_point_of(point, flow.threads, flow.mutexes, flow.tokens.len()) {
            return false;
        }
    }
    true
}

/// Whether each edge is one of the flow.
fn are_edges(flow: &Flow) -> bool
    requires counts { HaveCounts flow.now.points (length flow.now.tokens) }
    requires few { length flow.now.tokens ≤ 64 }
    ensures { IsTrue result ↔ AreEdges flow.now }
{
    for edge in flow.edges.as_slice() {
        if !is_edge_of(flow, *edge) {
            return false;
        }
    }
    true
}

/// Whether there are few resources, each with tokens, and few points and edges.
fn are_resources(flow: &Flow) -> bool
    ensures { IsTrue result ↔ AreResources flow.now }
{
    is_small(flow) && are_tokens(flow.tokens.as_slice(), flow.mutexes)
}

/// Whether the resources and the points are those of a flow.
fn are_places(flow: &Flow) -> bool
    ensures { IsTrue result ↔ ArePlaces flow.now }
{
    are_resources(flow) && are_points(flow)
}

/// Whether points and edges are those of a flow: whether what is held is the account of the edges, an edge at which
/// a thread may be blocked is the only one of its point, and every number names what there is.
pub fn is_flow(flow: &Flow) -> bool
    ensures { IsTrue result ↔ IsFlow flow.now }
{
    are_places(flow) && are_edges(flow)
}
