//! The points of a program: where its threads can stand, the edges between, and what is held there.
#![tactic(auto)]

mod flow;
mod laws;
mod marks;
mod routes;
mod shapes;
mod walk;

pub use flow::flow_of;
pub use laws::marks_make_pieces;
pub use shapes::{Shape, push_shapes};
