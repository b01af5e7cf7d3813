//! The parser of statements that hold no others.
//!
//! Each function reads what the function of its name in `specs/` does, which is a parser over lists of
//! tokens made of the combinators of `parse_laws` and of the parsers of `c_expressions`.
#![tactic(auto)]

pub mod assignments;
pub mod declarations;
pub mod library;
pub mod results;
pub mod simple;
pub mod takes;
pub mod token;
pub mod trees;
pub mod values;
