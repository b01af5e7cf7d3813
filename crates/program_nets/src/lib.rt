//! The net of a program, computed, and whether it is covered.
//!
//! The points and edges of a program with the tokens of its mutexes and monitors are a Petri net. Where
//! each minimal set of resources has a line in it, no state that the program reaches, on any input and by
//! any schedule, has a stuck set.
#![tactic(auto)]

mod covered;
mod error;
mod nets;

pub use covered::first_bad_set_of;
pub use error::CoverageError;
pub use nets::net_of;
