//! The parser of statements, of the bodies of functions, and of the threads that `main` declares.
//!
//! Each function reads what the function of its name in `specs/` does, which is a parser over lists of tokens made
//! of the combinators of `parse_laws`.
#![tactic(auto)]

pub mod body;
pub mod part;
pub mod slot;
pub mod statement;
pub mod tested;
pub mod tree;
pub mod word;
