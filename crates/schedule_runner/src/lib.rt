//! Runs of programs by schedules, and their traces.
#![tactic(auto)]

mod acts;
mod runs;

pub use acts::{Line, act_line};
pub use runs::{Acts, Trace, TraceEnd, run};
