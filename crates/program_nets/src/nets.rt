// From points and edges to the net.
ghost use Rattle.std.specs.Prelude.{◌≡◌, ◌^◌, ◌<◌, IfOk};
ghost use Rattle.c_canonical.specs.ShapedPrograms.{ShapedProgram};
ghost use Rattle.c_meaning.specs.Shown.{shown};
ghost use Rattle.c_tree.specs.Lined.{program_of};
ghost use Rattle.c_tree.specs.Numbering.{mutex_count};
ghost use Rattle.context_walk.specs.Prepared.{IsFormed};
ghost use Rattle.flow_graph.specs.Flow.{IsFlow};
ghost use Rattle.flow_laws.specs.Conditions.{whole_flow};
ghost use Rattle.flow_laws.specs.Nets.{tokens_in};

use c_tree::Program;
use context_locals::mutex_count;
use edges::Counts;
use flow_laws::flows_meet_the_nets_condition;
use gadara_net::{Flow, Net};
use outline_pieces::FlowParts;
use sqlite_items::Items;
use std::alloc::{AllocError, Global};

/// How many tokens each resource has: one for each mutex, and behind them the capacities of the monitors. The one
/// error is want of memory.
fn tokens_in(alloc: Global, p: &Program) -> Result<Counts, AllocError>
    requires { mutex_count (shown p.now) < 2 ^ 8 }
    ensures { IfOk result (λ tokens. tokens ≡ tokens_in (program_of p.now)) }
{
    let mut tokens = vec![in alloc; 1u32; mutex_count(p) as usize]?;
    tokens.extend_from_slice(p.monitors.as_slice())?;
    Ok(Items::from_vec(tokens))
}

/// The net of a well-formed program with this flow, which is its own. The one error is want of memory.
pub fn net_of(alloc: Global, p: &Program, flow: FlowParts) -> Result<Net, AllocError>
    requires formed { IsFormed p.now }
    requires shaped { ShapedProgram (shown p.now) }
    requires flow { IsFlow (program_of p.now) flow }
    ensures { IfOk result (λ net. net ≡ whole_flow (program_of p.now) flow) }
{
    flows_meet_the_nets_condition();
    let tokens = tokens_in(alloc, p)?;
    let whole = Flow {
        threads: flow.threads,
        mutexes: u32::from(mutex_count(p)),
        tokens,
        points: flow.points,
        edges: flow.edges,
    };
    Net::net(alloc, whole)
}
