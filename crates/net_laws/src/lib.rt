//! Laws of Petri nets whose places are the points of threads and the resources that threads take
//! and give back.
//!
//! Each law is a function with an empty body, whose contract is the law.
#![tactic(auto)]

pub mod lines;
pub mod siphons;
pub mod stuck_sets;
