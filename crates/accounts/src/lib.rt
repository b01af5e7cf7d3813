//! Accounts: what the threads of each reached state hold is what is held at their points.
//!
//! A program whose threads have outlines has a net, whose points are those of the outlines. Each
//! state that the program reaches is a marking of this net, and each stuck set of the state is one
//! of the marking. So a program whose net has lines never gets stuck, as it was read. Each law is a
//! function with an empty body, whose contract is the law.
#![tactic(auto)]

mod points;
mod stuck_sets;

pub use points::{
    each_step_goes_along_edges, formed_programs_are_outlined, programs_have_nets,
    reached_states_are_marked, reached_threads_are_at_points, threads_hold_by_what_they_do,
};
pub use stuck_sets::{
    programs_with_lines_never_get_stuck, stuck_sets_are_of_markings, stuck_sets_empty_siphons,
};
