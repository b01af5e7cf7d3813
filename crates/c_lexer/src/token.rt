//! Tokens, their places, and the reasons why a text is refused.

use thiserror::Error;

/// A sign of one or two bytes: ISO/IEC 9899:1999, section 6.4.6, without the signs that the tool
/// doesn't read.
#[derive(Clone, Copy, Debug, PartialEq, Eq)]
pub enum Sign {
    /// `(`
    LeftParenthesis,
    /// `)`
    RightParenthesis,
    /// `{`
    LeftBrace,
    /// `}`
    RightBrace,
    /// `[`
    LeftBracket,
    /// `]`
    RightBracket,
    /// `;`
    Semicolon,
    /// `,`
    Comma,
    /// `&`
    Ampersand,
    /// `*`
    Star,
    /// `=`
    Assign,
    /// `==`
    Equal,
    /// `!=`
    NotEqual,
    /// `<`
    Less,
    /// `<=`
    LessEqual,
    /// `>`
    Greater,
    /// `>=`
    GreaterEqual,
    /// `+`
    Plus,
    /// `-`
    Minus,
    /// `/`
    Slash,
    /// `%`
    Percent,
    /// `!`
    Not,
    /// `&&`
    And,
    /// `||`
    Or,
    /// `+=`
    AddAssign,
    /// `-=`
    SubtractAssign,
    /// `*=`
    MultiplyAssign,
    /// `/=`
    DivideAssign,
    /// `%=`
    RemainderAssign,
    /// `++`
    Increment,
    /// `--`
    Decrement,
    /// `...`
    Ellipsis,
}

/// A place in a text: the bytes from `start` up to and without `end`, counted from 0.
#[derive(Clone, Copy, Debug, PartialEq, Eq)]
pub struct Span {
    /// The place of the first byte.
    pub start: usize,
    /// The place after the last byte.
    pub end: usize,
}

/// A token.
#[derive(Clone, Copy, Debug, PartialEq, Eq)]
pub enum Token {
    /// A letter or `_`, then letters, digits and `_`: at most 63 characters.
    Name,
    /// A decimal number without leading zeros, from 0 to 2147483647.
    Number(u32),
    /// A text in quotes.
    Text,
    /// A sign.
    Sign(Sign),
    /// A line `#define NAME NUMBER`: the place of the name, and the number.
    Define(Span, u32),
}

/// Why no token stands at a place of a text. The line of a place is 1 plus the number of newlines
/// before it.
#[derive(Clone, Copy, Debug, PartialEq, Eq, Error)]
pub enum LexError {
    /// No token, blank, comment or preprocessor line begins with this byte.
    #[error("line {line}: byte outside the profile")]
    BadByte {
        /// The byte's line.
        line: u32,
    },
    /// A comment `/* ..` isn't closed.
    #[error("line {line}: comment is not closed")]
    OpenComment {
        /// The line on which the comment begins.
        line: u32,
    },
    /// A number runs on into a letter or `_`, or has a leading zero.
    #[error("line {line}: number is not a plain decimal")]
    BadNumber {
        /// The number's line.
        line: u32,
    },
    /// A plain decimal number is above 2147483647.
    #[error("line {line}: number is larger than 2147483647")]
    NumberTooLarge {
        /// The number's line.
        line: u32,
    },
    /// A name has more than 63 characters.
    #[error("line {line}: name is longer than 63 characters")]
    LongName {
        /// The name's line.
        line: u32,
    },
    /// A text isn't closed, is longer than 120 bytes, or holds a byte, an escape or a conversion
    /// that isn't allowed.
    #[error("line {line}: text outside the profile")]
    BadText {
        /// The line on which the text begins.
        line: u32,
    },
    /// A `#` that isn't the first on its line, or begins neither an `#include` of one of the five
    /// headers nor a `#define` of a number.
    #[error("line {line}: preprocessor line outside the profile")]
    BadLine {
        /// The line of the `#`.
        line: u32,
    },
}
