//! What the tool answers of the files that its words name.
//!
//! Nothing here reaches the outside. [`decide`] is what a command answers once its files are read: a
//! status, and the text of the output or the line of complaint that goes with it. Each command has a file
//! of its own, here and in the specifications.
#![tactic(auto)]

mod answer;
mod commands;
mod instrument;
mod laws;
mod lines;
mod program;
mod reasons;
mod refusal;
mod run;
mod runtime;
mod status;
mod traced;

pub use answer::{Answer, too_long, unread, usage};
pub use commands::decide;
pub use instrument::accepted_programs_are_safe;
pub use laws::one_answer;
pub use status::Status;
