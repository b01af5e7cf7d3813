//! Nets of points and resources: least siphons, arcs of hold-and-wait, and lines that bound what is
//! held.
//!
//! A [`Flow`] has the points of threads, the edges between them and the resources whose tokens are
//! taken and given back along edges. A [`Net`] is made from one, and answers what a Petri net of it
//! has: a place for each point and for each resource. Sets of resources are masks: bit `r` says
//! whether resource `r` is a member. Only making a net, a [`Work`] or a general line takes memory.
//!
//! [`laws`] has what follows for the net: where each minimal set has a line that holds, no set of
//! threads is ever stuck.
#![tactic(auto)]

mod bounds;
mod chains;
mod flow;
mod graphs;
pub mod laws;
mod lines;
mod marks;
mod net;
mod point_rows;
pub mod sets;
mod siphons;
mod sums;
mod work;

pub use flow::Flow;
pub use net::Net;
use sqlite_items::Items;
pub use work::Work;

/// A weight for each point, in the order of the points.
pub type Weights = Items<u64>;
