//! The candidates of a net: sets of resources that threads can hold and wait for in a circle.
//!
//! There is an arc of hold-and-wait from a resource to another where some thread can hold the one and take the other.
//! A candidate is a nonempty set of resources in which each is reached from each, also from itself, by arcs inside the
//! set. [`Candidates`] gives them one after the other, by size and then by their masks as numbers, and takes no memory.
//! Sets of resources are masks: bit `r` says whether resource `r` is a member.
//!
//! [`laws`] has what follows: each candidate lies in one strong component, comes once, and is told by its least siphon.
#![tactic(auto)]

mod graph;
pub mod laws;
mod search;
mod sets;
mod subsets;

pub use search::Candidates;
