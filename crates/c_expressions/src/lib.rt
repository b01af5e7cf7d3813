//! The parser of expressions, and of what statements are made of besides: places, calls, and the argument
//! of a new thread.
//!
//! Each function reads what the function of its name in `specs/` does, which is a parser over lists of
//! tokens made of the combinators of `parse_laws`. That what is read is what the grammar spells is said of
//! whole programs, by `c_programs` and `c_parser`.
#![tactic(auto)]

pub mod argument;
pub mod expression;
pub mod list;
pub mod part;
pub mod tall;
pub mod token;
