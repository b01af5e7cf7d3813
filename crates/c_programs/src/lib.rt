//! The parser of programs: what stands outside functions, with definitions among it, and functions with their
//! bodies.
//!
//! Each function reads what the function of its name in `specs/` does, which is a parser over lists of tokens
//! made of the combinators of `parse_laws`.
#![tactic(auto)]

pub mod function;
pub mod laws;
pub mod outer;
pub mod program;
pub mod token;
pub mod tree;
