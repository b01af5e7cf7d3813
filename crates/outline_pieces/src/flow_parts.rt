// What a flow is made from.
use edges::{Edges, Points};

/// The points of threads, with what is held there, and the edges between them.
#[derive(Debug, Drop)]
pub struct FlowParts {
    /// How many threads there are.
    pub threads: u32,
    /// The points.
    pub points: Points,
    /// The edges, in the order of their points.
    pub edges: Edges,
}
