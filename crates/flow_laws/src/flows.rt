// That a program has one flow, or one error.

ghost use Rattle.flow_laws.specs.Laws.{FlowsAreOne, FlowsHaveNoError, ErrorsAreOne, ProgramsHaveFlows};

/// Two flows of a program are equal. One that has a flow has no error but want of memory, and two
/// errors of a program are equal, where none is want of memory.
pub fn flows_are_one()
    ensures flows { FlowsAreOne }
    ensures no_error { FlowsHaveNoError }
    ensures errors { ErrorsAreOne }
{}

/// A program has a flow exactly where its threads have outlines with 4,096 points at most, of which
/// what is held isn't refused.
pub fn programs_have_flows()
    ensures { ProgramsHaveFlows }
{}
