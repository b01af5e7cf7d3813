//! The tokens of a text as the parser sees them: words are told apart, a name that is defined is a number, and
//! each token has its line and its place in the text.
//!
//! [`read_tokens`] reads a text once, from its first byte to its end, to what is refused in it, or to the token after
//! the 65,536th. No byte of the text is copied.
#![tactic(auto)]

mod mark;
mod reader;
mod words;

pub use reader::{End, MOST_TOKENS, Tokens, read_tokens};
