// That the net of a flow is the program's.

ghost use Rattle.flow_laws.specs.Laws.{TokensAreOfResources, FlowsAreNets};

/// One token for each mutex, and behind them the capacities of the monitors in order, are the
/// tokens of each resource of a program.
pub fn tokens_are_of_resources()
    ensures { TokensAreOfResources }
{}

/// The net of a flow with these tokens is the net of the program, which is well-formed and shaped
/// as the grammar has it. What is held at each point is what the flow says.
pub fn flows_are_nets()
    ensures { FlowsAreNets }
{}
