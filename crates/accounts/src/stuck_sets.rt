// That programs whose nets have lines never get stuck.

ghost use Rattle.accounts.specs.StuckSets.{BlockedAreMarked, StuckAreMarked, StuckAreWanted, StuckLeaveNoThread, StuckLeaveNoToken, StuckHaveCandidates};
ghost use Rattle.accounts.specs.StuckSets.{LinesKeepUnstuck, CoveredAreUnstuck, ValidAreUnstuck};

/// A thread of a reached state that is blocked for a resource is so in the marking, and a stuck
/// set of the state is one of the marking.
pub fn stuck_sets_are_of_markings()
    ensures blocked { BlockedAreMarked }
    ensures stuck { StuckAreMarked }
{}

/// A stuck set of a reached state empties the least siphon of the resources that it is blocked
/// for: no thread is at one of its points, and no token of these resources is free. Some candidate
/// among these resources has its least siphon inside.
pub fn stuck_sets_empty_siphons()
    ensures resources { StuckAreWanted }
    ensures no_thread { StuckLeaveNoThread }
    ensures no_token { StuckLeaveNoToken }
    ensures candidate { StuckHaveCandidates }
{}

/// A program never gets stuck where each candidate of its net has a line for a set whose least
/// siphon lies in its own; so it is where the net is covered, and where a certificate for it is
/// valid.
pub fn programs_with_lines_never_get_stuck()
    ensures lines { LinesKeepUnstuck }
    ensures covered { CoveredAreUnstuck }
    ensures valid { ValidAreUnstuck }
{}
