// What holds of all states and events.
ghost use Rattle.c_meaning.specs.Laws.{EndsWithMain, BlockedForOne, BlockedIsComputed, StuckIsClosed, StuckSetsUnite};

/// Nothing is enabled after main has ended.
pub fn programs_end_with_main()
    ensures { EndsWithMain }
{}

/// A thread is blocked for one resource at most, and the union of two stuck sets is stuck.
pub fn stuck_sets_unite()
    ensures blocked { BlockedForOne }
    ensures union { StuckSetsUnite }
{}

/// What a thread is blocked for is computed from its state, and a set is stuck exactly where it has
/// a thread and is closed.
pub fn stuck_sets_are_closed()
    ensures computed { BlockedIsComputed }
    ensures closed { StuckIsClosed }
{}
