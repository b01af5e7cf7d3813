//! Why a text has no tree.

ghost use Rattle.std.specs.Prelude.{◌≡◌};
ghost use Rattle.c_parser.specs.declared.error.ParseError.TheVariants.{Memory};

use c_lexer::LexError;
use std::alloc::AllocError;
use thiserror::Error;

/// Why a text has no tree. Lines are counted from 1.
#[derive(Clone, Copy, Debug, PartialEq, Eq, Error)]
pub enum ParseError {
    /// The lexer refuses what follows tokens that begin a program.
    #[error("{0}")]
    Lex(LexError),
    /// The first token with which no program goes on stands on this line. The end of the text counts as one.
    #[error("line {line}: syntax")]
    Syntax {
        /// The line of that token.
        line: u32,
    },
    /// The first token with which only programs go on that take more than 64 levels stands on this line.
    #[error("line {line}: nested too deep")]
    TooDeep {
        /// The line of that token.
        line: u32,
    },
    /// More than 65,536 tokens.
    #[error("too many tokens")]
    TooManyTokens,
    /// There isn't enough memory.
    #[error("out of memory")]
    Memory,
}

impl From<AllocError> for ParseError {
    ghost from_gives = { λ _ e. e ≡ Memory };

    fn from(_: AllocError) -> ParseError {
        ParseError::Memory
    }
}
