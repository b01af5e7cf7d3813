//! What a net asks, of points, edges and sets of resources that come from outside.
#![tactic(auto)]

mod edge;
mod flow;
mod point;
mod sets;

pub use flow::is_flow;
pub use sets::names_resources;
