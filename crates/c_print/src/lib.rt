//! The canonical text of a program.
//!
//! [`print`] writes it. `c_canonical` says which text that is, as a layout.
#![tactic(auto)]

mod acts;
mod expressions;
mod programs;
mod statements;
mod waits;
mod writing;

pub use programs::print;
