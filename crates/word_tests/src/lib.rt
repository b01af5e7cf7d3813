//! Tests of the tokens of texts, as the lexer finds them and as the parser sees them.
//!
//! They stand in one crate, since a crate with tests is proved twice.
#![tactic(auto)]

#[cfg(test)]
mod tokens;
#[cfg(test)]
mod words;
