// Where threads stand in their outlines, and how they move.

ghost use Rattle.outline_runs.specs.Laws.{ThreadsStart, StepsMoveThreads, ReachedThreadsStand, WantedComesNext};

/// When a program starts, main stands at the head of its outline, and each other thread before its
/// own.
pub fn threads_start_at_their_outlines()
    ensures { ThreadsStart }
{}

/// A step from a reached state takes each thread along an edge of its outline, whose operation is
/// exactly the change of what the thread holds, or leaves it where it stands with what it holds.
///
/// This is so of the thread that acts and of those that a signal, a broadcast or a create moves,
/// and also where the step stands in a function that bears no locks: the thread that acts there
/// stays at the call of that function.
pub fn each_step_moves_threads()
    ensures { StepsMoveThreads }
{}

/// In each reached state each thread stands in its outline.
pub fn reached_threads_stand()
    ensures { ReachedThreadsStand }
{}

/// What a thread wants, and is blocked for where no token of it is free, is the resource that the
/// next edge of its outline waits for.
pub fn what_is_wanted_comes_next()
    ensures { WantedComesNext }
{}
