//! Runs along outlines: how the steps of a program move its threads along their outlines.
//!
//! A thread stands in a position of its outline: what is left of the functions that it is in. Each
//! step takes each thread along one edge, or leaves it where it stands. Each law is a function with
//! an empty body, whose contract is the law.
#![tactic(auto)]

mod laws;

pub use laws::{
    each_step_moves_threads, reached_threads_stand, threads_start_at_their_outlines,
    what_is_wanted_comes_next,
};
