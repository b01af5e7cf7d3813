//! From the pieces of outlines to points, edges and what is held, or to the first refusal.
//!
//! Outlines nest as deep as programs do. So a [`Builder`] takes the outline of each thread as the
//! flat list of its pieces, and nothing here recurses. It drops what control never reaches and
//! numbers the points. At the end one walk forward counts what is held at each point, and one
//! walk back, from where control comes next, finds the edges.
#![tactic(auto)]

mod builder;
mod counts;
mod course;
mod error;
mod flow_parts;
pub mod laws;
mod pieces;
mod stack;
#[cfg(test)]
mod tests;
mod walk;
mod ways;

pub use builder::Builder;
pub use error::FlowError;
pub use flow_parts::FlowParts;
pub use pieces::{Deed, Piece};
