// What a net is made from.
use edges::{Counts, Edges, Points};

/// The points and edges of a threaded program, and its resources.
///
/// Threads, resources and points have the numbers from 0 on. Resources are mutexes first, then
/// monitors.
#[derive(Debug, Drop)]
pub struct Flow {
    /// How many threads there are.
    pub threads: u32,
    /// How many mutexes there are.
    pub mutexes: u32,
    /// How many tokens each resource has.
    pub tokens: Counts,
    /// The points.
    pub points: Points,
    /// The edges between them.
    pub edges: Edges,
}
