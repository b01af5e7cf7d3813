//! The tokens of a text in the part of C that this tool reads.
//!
//! [`next_token`] gives one token after another and takes no memory. What a token is, and which
//! bytes are refused, is defined in `specs/` in the terms of ISO/IEC 9899:1999, section 6.4,
//! narrowed: names, decimal numbers, texts, signs, and `#define` lines that give a name a number.
//! Blanks, comments and `#include` lines of five headers stand between tokens.
#![tactic(auto)]

mod classes;
mod comments;
mod directives;
mod lexer;
mod piece;
mod places;
mod signs;
mod texts;
mod token;
mod words;

pub use lexer::{lines_add_up, next_token, one_reading, token_by_token};
pub use token::{LexError, Sign, Span, Token};
