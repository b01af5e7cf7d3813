//! Texts to trees.
//!
//! [`parse`] reads the program that a text spells, by C's lexical rules and its syntax (ISO/IEC 9899:1999), both
//! narrowed to the tool's C; it names the first token with which a text can't go on, or whose program nests too deep.
//! It is made of parts that stand below: the tokens of a text with the words that are told apart (`c_tokens`), and
//! the parser of programs over them (`c_programs`). What a text spells is defined in `c_lexer` and `c_grammar`; which
//! answer has which cause stands in `specs/`.
#![tactic(auto)]

mod error;
mod laws;
mod parser;

pub use error::ParseError;
pub use laws::{one_answer, one_program};
pub use parser::parse;
