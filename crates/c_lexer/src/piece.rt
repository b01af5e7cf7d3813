//! What some bytes of a text are, taken together.

use crate::token::Token;

/// Why bytes are refused, their line apart.
#[derive(Clone, Copy)]
pub enum Fault {
    BadByte,
    OpenComment,
    BadNumber,
    NumberTooLarge,
    LongName,
    BadText,
    BadLine,
}

/// What bytes are: a blank, comment or include between tokens, a token, or bytes that are refused.
#[derive(Clone, Copy)]
pub enum Lexeme {
    Skip,
    Token(Token),
    Refused(Fault),
}

/// What a text begins with, and its number of bytes.
#[derive(Clone, Copy)]
pub struct Cut {
    pub lexeme: Lexeme,
    pub len: usize,
}
