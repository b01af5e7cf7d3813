//! The walk through the contexts of a program.
//!
//! Each function is prepared once: its statements that matter for contexts become one list, in
//! which the locals, mutexes and functions that they name have numbers. A walk then goes along
//! these lists, and calls itself only where a function that bears locks is called. It finds the
//! contexts of a program, with the resource of each lock in each, or is refused.
#![tactic(auto)]

mod functions;
mod items;
mod marks;
mod starts;
mod steps;
mod walk;

pub use functions::{Functions, Prepared};
pub use marks::{ContextError, Contexts, Mark};
pub use starts::resolve;
