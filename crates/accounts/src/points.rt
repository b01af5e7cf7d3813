// At which points of their net the threads of a program are, and what they hold there.

ghost use Rattle.accounts.specs.Laws.{FormedAreOutlined, ProgramsHaveNets, NetsHaveResources, ReachedAreAtPoints, StepsGoAlongEdges, ReachedHaveAccounts, StepsKeepAccounts, OwnersAreCounted};
ghost use Rattle.accounts.specs.Laws.{StatesAreMarked, HeldIsMarked, FreeIsMarked};

/// The walk through the contexts of a well-formed program that is shaped as the grammar has it
/// finds outlines of its threads.
pub fn formed_programs_are_outlined()
    ensures { FormedAreOutlined }
{}

/// Where the walk through these outlines refuses nothing of what is held, the program has a net
/// with the walk's counts. Each such net has the resources of the program: at most 64, each with
/// tokens, and mutexes with one.
pub fn programs_have_nets()
    ensures nets { ProgramsHaveNets }
    ensures resources { NetsHaveResources }
{}

/// In each reached state each thread is at a point of its own.
pub fn reached_threads_are_at_points()
    ensures { ReachedAreAtPoints }
{}

/// A step from a reached state takes each thread along an edge of the net, whose operation is
/// exactly the change of what the thread holds, or leaves it at its point with what it holds.
pub fn each_step_goes_along_edges()
    ensures { StepsGoAlongEdges }
{}

/// In each reached state each thread is at a point, and holds of each resource as many tokens as
/// are counted there; and each step leads to such points again, along edges. So a thread owns a
/// mutex exactly where one is counted.
pub fn threads_hold_by_what_they_do()
    ensures reached { ReachedHaveAccounts }
    ensures steps { StepsKeepAccounts }
    ensures owners { OwnersAreCounted }
{}

/// The points of the threads of a reached state are a marking of the net: of no resource more
/// tokens are held than there are. What is held at them is what the threads hold, and the rest is
/// free: no token of a resource is free exactly where all are held.
pub fn reached_states_are_marked()
    ensures marking { StatesAreMarked }
    ensures held { HeldIsMarked }
    ensures free { FreeIsMarked }
{}
