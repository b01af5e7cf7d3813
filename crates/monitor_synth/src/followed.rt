// Edges along which weights are moved back.
ghost use Rattle.std.specs.Prelude.{◌≡◌};
ghost use Rattle.net_laws.specs.Net.{HasEdge};
ghost use Rattle.gadara_net.specs.Flows.{flow_net};
ghost use Rattle.weight_laws.specs.Weights.{is_quiet as is_quiet_of, follows};

use edges::{Edge, EdgeOp};
use gadara_net::Net;

/// Whether the operation takes nothing.
fn is_quiet(op: EdgeOp) -> bool
    ensures { result ≡ is_quiet_of op }
{
    match op {
        EdgeOp::Plain | EdgeOp::Release(_) => true,
        EdgeOp::Acquire(_) | EdgeOp::Try(_) | EdgeOp::Reacquire(_) => false,
    }
}

/// Whether weights are moved back along an edge: one that takes nothing, from a point at which no
/// lock is tried.
pub fn is_followed(n: &Net, edge: Edge) -> bool
    requires { HasEdge (flow_net n.now) edge }
    ensures { result ≡ follows (flow_net n.now) edge }
{
    n.keeps_flow();
    is_quiet(edge.op) && !n.tries(edge.from)
}
