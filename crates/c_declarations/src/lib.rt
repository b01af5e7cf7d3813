//! The parser of what stands outside functions: scalars and arrays of type `int`, mutexes, conditions, the
//! capacities of monitors, and the heads of functions.
//!
//! Each function reads what the function of its name in `specs/` does, which is a parser over lists of
//! tokens made of the combinators of `parse_laws`. That what is read is what the grammar spells is said of
//! whole programs, by `c_programs` and `c_parser`.
#![tactic(auto)]

pub mod capacity;
pub mod cell;
pub mod declaration;
pub mod function;
pub mod object;
pub mod token;
pub mod tree;
pub mod value;
pub mod wait;
