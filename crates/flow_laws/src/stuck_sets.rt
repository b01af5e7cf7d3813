// That programs whose flow has a net with lines never get stuck.

ghost use Rattle.flow_laws.specs.StuckSets.{LinesKeepUnstuck, CoveredAreUnstuck, ValidAreUnstuck};

/// A program never gets stuck where each candidate of the net of its flow has a line for a set
/// whose least siphon lies in its own; so it is where the net is covered, and where a certificate
/// for it is valid.
pub fn programs_with_lines_never_get_stuck()
    ensures lines { LinesKeepUnstuck }
    ensures covered { CoveredAreUnstuck }
    ensures valid { ValidAreUnstuck }
{}
