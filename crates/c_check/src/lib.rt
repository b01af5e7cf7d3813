//! Whether a program is well formed, and the numbers of its threads, mutexes and monitors.
#![tactic(auto)]

mod answer;
mod breaks;
mod counts;
mod functions;
mod laws;
mod mutex;
mod numbers;
mod outer;
mod own;
mod slots;
mod table;
mod walk;
mod written;

pub use answer::{CheckError, check};
pub use c_rules::{Count, Rule};
pub use laws::resources_are_of_the_program;
pub use numbers::Table;
