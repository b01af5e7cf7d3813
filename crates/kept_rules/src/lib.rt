//! What keeps a program well formed: copies of functions, takes and gives of monitors that are put
//! in, and other lines.
//!
//! Each law is a function with an empty body, whose contract is the law.
#![tactic(auto)]

mod laws;
mod samples;

pub use laws::{
    copies_keep_the_rules, edits_keep_the_rules, lines_do_not_matter,
    programs_are_copies_of_themselves, programs_of_users_are_programs, puts_keep_the_rules,
};
pub use samples::a_monitor_is_put_in_so;
