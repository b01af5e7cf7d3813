//! What the names of a program stand for, and which expressions are constant.
#![tactic(auto)]

mod constants;
mod meanings;
mod names;
mod outer;
mod tables;

pub use constants::{constant, number_of};
pub use meanings::{fits, is_out_of_reach, is_start, meaning};
pub use names::{is_function_name, is_reserved};
pub use outer::{Declaration, Thing, declarations};
pub use tables::{Names, Scope, declaration_of, declare, enter, is_in_scope};
