//! Paths along rows, and what rows are.

ghost use Rattle.outline_laws.specs.Reaching.{PointsReachEnd, PointsAreReached};
ghost use Rattle.outline_laws.specs.Shapes.{RowsHaveShape};

/// From each point of a thread there is a path to its last, where the thread has ended.
///
/// No point is left out: a test has a way out of its loop, whatever it tests.
pub fn points_reach_the_end()
    ensures { PointsReachEnd }
{}

/// To each point of a thread there is a path from its first: only what is live has points.
pub fn points_are_reached()
    ensures { PointsAreReached }
{}

/// The ways of each point lead to points of its thread and have the shape of its kind.
///
/// A test has two plain ways, a trylock one that takes and a plain one, and any other point one
/// at most. A wait is entered by the release of what is taken again at its end, and in no other
/// way.
pub fn rows_have_shape()
    ensures { RowsHaveShape }
{}
