//! Texts of schedules and of inputs, which say what a run of a program does.
//!
//! A schedule has an event on each line: `T go`, `T choose U` or `T wake`, where `T` and `U` are
//! threads, numbered below 32 in decimal and without leading zeros, with single blanks between the
//! words. Lines that are empty or begin with `#` say nothing. An input has numbers that fit 32 bits with
//! their sign, parted by blanks, tabs and line breaks.
#![tactic(auto)]

mod event;
mod input;
mod laws;
mod pieces;
mod schedule;
mod thread;

pub use input::{InputError, read_input};
pub use laws::{one_input, one_schedule};
pub use schedule::{LONGEST, Schedule, ScheduleError, read_schedule};
