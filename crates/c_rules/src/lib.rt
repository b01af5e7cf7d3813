//! Which programs are well formed: the rules, each as the lines at which it is broken, and the
//! numbers that a program keeps within.
#![tactic(auto)]

mod laws;
mod role;
mod rule;
mod samples;

pub use laws::{
    each_rule_is_decidable, every_program_is_judged, judgements_exclude_each_other,
    one_first_break, one_first_passed,
};
pub use role::Role;
pub use rule::{Count, Rule};
pub use samples::{
    amounts_are_limited, arguments_are_constant, copies_are_named_in_any_mode,
    first_breaks_are_told, kept_names_are_reserved, main_is_there, misuses_are_wrong_kinds,
    monitors_are_of_the_tool, names_are_in_scope, names_have_one_meaning, names_leave_room,
    numbers_match, objects_are_initialised_early, ranges_are_not_empty, recursions_are_found,
    threads_are_created_at_fixed_places, threads_are_joined_at_fixed_places, uses_fit,
};
