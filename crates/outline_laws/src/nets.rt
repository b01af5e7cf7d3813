//! What a net keeps whose points and edges are those of threads.

ghost use Rattle.outline_laws.specs.Nets.{BlocksAlone, LeadsWithin, PointsAreOfThreads, TakesWhatIsNamed, GivesWhatIsNamed, SleepersWake, PathsEnd};

/// Where a thread may be blocked there is one edge.
pub fn blocking_edges_are_alone()
    ensures { BlocksAlone }
{}

/// Edges lead between points, and both are of one thread; each point is of one of the threads.
pub fn edges_lead_within_threads()
    ensures edges { LeadsWithin }
    ensures points { PointsAreOfThreads }
{}

/// What an edge takes or gives is one of the resources that the outlines name.
pub fn edges_name_resources()
    ensures taken { TakesWhatIsNamed }
    ensures given { GivesWhatIsNamed }
{}

/// A thread goes to sleep on an edge that gives a resource, and takes it again, over edges that
/// are alone, before it gives anything.
pub fn sleepers_take_again()
    ensures { SleepersWake }
{}

/// From each point there is a path to the last point of its thread.
pub fn paths_lead_to_ends()
    ensures { PathsEnd }
{}
