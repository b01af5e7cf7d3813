//! What the statements of a program break by themselves: those that hold no others, and the names
//! that statements use and declare.
#![tactic(auto)]

mod acts;
mod first;
mod uses;

pub use acts::{check_act, check_local};
pub use first::{Break, note, note_if};
pub use uses::{Inside, check_expr, check_place, check_value};
