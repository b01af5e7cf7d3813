//! Flow laws: what the points and edges of a program say of it.
//!
//! The flow of a program, its points with what is held at each and its edges, is the only one, and
//! no program has both a flow and a refusal. Its net, with the tokens of the program's resources,
//! is the net of the program. So what holds of the net holds of each run: where it has lines, or a
//! certificate for it is valid, the program never gets stuck. Each law is a function with an empty
//! body, whose contract is the law.
#![tactic(auto)]

mod conditions;
mod flows;
mod nets;
mod stuck_sets;

pub use conditions::flows_meet_the_nets_condition;
pub use flows::{flows_are_one, programs_have_flows};
pub use nets::{flows_are_nets, tokens_are_of_resources};
pub use stuck_sets::programs_with_lines_never_get_stuck;
