//! Laws of the outlines of threads, of their points, and of the net that these are.
//!
//! Each law is a function with an empty body, whose contract is the law.
#![tactic(auto)]

pub mod moves;
pub mod nets;
pub mod paths;
