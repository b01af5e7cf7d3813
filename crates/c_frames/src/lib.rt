//! Frames of calls: where a call stands in the statements of its function, and the values of its locals.
//!
//! A function's names are collected once, by [`local_names`]. A [`Frame`] then takes memory only where it is made: it
//! has a place for the value of each name, and room for as many lists as stand inside one another in the function.
#![tactic(auto)]

mod frames;
mod heights;
mod locals;
mod names;
mod positions;

pub use frames::{Arm, Frame};
pub use names::{LocalNames, local_names};
