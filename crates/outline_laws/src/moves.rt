//! Threads move along the rows of their points.

ghost use Rattle.outline_laws.specs.Leading.{PartLeads, PartsLead, JoinedLead, ThreadsHaveRows, ThreadsBegin, MovesGoAlong};

/// The rows of what is live of an outline lead through the whole of it, dead parts left out.
///
/// Parts with others behind them are led through where both are; behind parts that control
/// doesn't pass nothing is asked.
pub fn rows_lead_through()
    ensures part { PartLeads }
    ensures parts { PartsLead }
    ensures joined { JoinedLead }
{}

/// Among the rows of all threads those of each thread stand from the number of its first point on.
pub fn threads_have_rows()
    ensures { ThreadsHaveRows }
{}

/// A thread begins at the first of its points: main in its body, any other before it has begun.
pub fn threads_begin()
    ensures { ThreadsBegin }
{}

/// Where a thread moves from a position, the row of its point has a way that does the same and
/// leads to the point of the next position.
///
/// Since rows lead through all calls that are entered, a return is a move as any other.
pub fn moves_go_along_rows()
    ensures { MovesGoAlong }
{}
