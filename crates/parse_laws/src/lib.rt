//! The laws of parsing: parsers that look one token ahead, and what is proved of them whatever the
//! grammar.
//!
//! The laws are lemmas in `proofs/`, for the crates above to cite; docs/PARSING.md tells how. Here they
//! are put to work on a small language, lists of sums, which has what makes parsing hard: nesting and a
//! limit of levels, operators of two precedences, a list with separators, and a part that fits where no
//! sum does. Its parser is exact.
#![tactic(auto)]

pub mod fault;
pub mod laws;
pub mod parse;
pub mod sum;
#[cfg(test)]
mod tests;
pub mod token;
pub mod tree;
