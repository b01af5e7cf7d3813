//! The token at a place.

ghost use Rattle.std.specs.Prelude.{◌≡◌, ◌≢◌, ◌<◌, ◌≤◌, ◌^◌, ℕ, Bool, length, take, drop, slice_index};
ghost use Rattle.c_lexer.specs.Tokens.{Next, is_first, error_of};
ghost use Rattle.c_lexer.specs.Cuts.{Cuts};
ghost use Rattle.c_lexer.specs.Laws.{OneNext, OneScan, TokenByToken, LinesAddUp, IsInside};

use crate::classes::{is_blank, is_digit, is_letter};
use crate::comments::slash;
use crate::directives::hash;
use crate::piece::{Cut, Fault, Lexeme};
use crate::places::{from, is_first, line_at};
use crate::signs::sign;
use crate::texts::quoted;
use crate::token::{LexError, Span, Token};
use crate::words::{name, number};

/// What a text begins with, where that isn't a `#`.
fn plain(text: &[u8]) -> Cut
    requires some { 0 < length text.now }
    requires no_hash { slice_index text.now 0 ≢ 35 }
    ensures { (first : Bool) (place : ℕ) → Cuts first place text.now result }
{
    let b = text[0];
    if is_letter(b) {
        name(text)
    } else if is_digit(b) {
        number(text)
    } else if is_blank(b) {
        Cut {
            lexeme: Lexeme::Skip,
            len: 1,
        }
    } else if b == b'"' {
        quoted(text)
    } else if b == b'/' {
        slash(text)
    } else {
        sign(text)
    }
}

/// What begins at a place.
fn piece(text: &[u8], at: usize) -> Cut
    requires inside { at < length text.now }
    requires fits { length text.now < 2 ^ 31 }
    ensures { Cuts (is_first (take at text.now)) at (drop at text.now) result }
{
    let rest = from(text, at);
    if rest[0] == b'#' {
        hash(rest, at, is_first(text, at))
    } else {
        plain(rest)
    }
}

/// What is refused, with its line.
fn error(fault: Fault, line: u32) -> LexError
    ensures { result ≡ error_of fault line }
{
    match fault {
        Fault::BadByte => LexError::BadByte { line },
        Fault::OpenComment => LexError::OpenComment { line },
        Fault::BadNumber => LexError::BadNumber { line },
        Fault::NumberTooLarge => LexError::NumberTooLarge { line },
        Fault::LongName => LexError::LongName { line },
        Fault::BadText => LexError::BadText { line },
        Fault::BadLine => LexError::BadLine { line },
    }
}

/// Gives the first token of `text` at or after the place `at`, and its span: the bytes of the text
/// there are the token's, longest first (ISO/IEC 9899:1999, section 6.4). A `Define` runs from its
/// `#` up to the end of its line, without the newline, and has the span of the name that it defines.
///
/// Gives `None` exactly where only blanks, comments and includes are left. Gives each error exactly
/// where what stands first after these is refused so, with its line.
///
/// Begin with the place 0, and go on from each token's end: such a place isn't inside a token, a
/// comment or a preprocessor line. What is found at any other place is what its bytes are there.
pub fn next_token(text: &[u8], at: usize) -> Result<Option<(Token, Span)>, LexError>
    requires within { at ≤ length text.now }
    requires fits { length text.now < 2 ^ 31 }
    ensures found { Next (take at text.now) (drop at text.now) result }
    ensures inside { IsInside at (length text.now) result }
{
    let mut place = at;
    while place < text.len() {
        let cut = piece(text, place);
        match cut.lexeme {
            Lexeme::Skip => place += cut.len,
            Lexeme::Token(token) => {
                let span = Span {
                    start: place,
                    end: place + cut.len,
                };
                return Ok(Some((token, span)));
            }
            Lexeme::Refused(fault) => return Err(error(fault, line_at(text, place))),
        }
    }
    Ok(None)
}

/// A law of all texts: one thing is found next at each place, and a text has one list of tokens.
pub fn one_reading()
    ensures next { OneNext }
    ensures scan { OneScan }
{}

/// A law of all texts: their tokens are those that `next_token` gives from each span's end on.
pub fn token_by_token()
    ensures { TokenByToken }
{}

/// A law of all texts: lines are counted on from place to place.
pub fn lines_add_up()
    ensures { LinesAddUp }
{}
