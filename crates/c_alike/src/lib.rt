//! The tokens of a text are parsed as its words are.
//!
//! The code's parser reads marked tokens, in a room for numbers of 32 bits, and is told which words of the grammar are
//! defined; the theory's reads the words of the lexer, with the definitions themselves. [`tokens_are_read_as_words`] is the
//! law that both answer the same.
#![tactic(auto)]

mod laws;

pub use laws::tokens_are_read_as_words;
