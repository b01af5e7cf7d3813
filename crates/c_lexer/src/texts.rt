//! Texts in quotes.

ghost use Rattle.std.specs.Prelude.{◌≡◌, ◌≢◌, ◌<◌, ◌≤◌, ℕ, Bool, None, length, drop, slice_index, MatchOption};
ghost use Rattle.c_lexer.specs.Readings as spec;
ghost use Rattle.c_lexer.specs.Lexeme.{ReadsTo};
ghost use Rattle.c_lexer.specs.Cuts.{Cuts};

use crate::piece::{Cut, Fault, Lexeme};
use crate::places::from;
use crate::token::Token;

/// The largest number of bytes between the quotes.
const LONGEST_TEXT: usize = 120;

/// Whether two bytes are an escape or a conversion that may stand in a text.
fn is_pair(b: u8, c: u8) -> bool
    ensures { result ≡ spec.is_pair b c }
{
    (b == b'\\' && (c == b'n' || c == b't' || c == b'\\' || c == b'"'))
        || (b == b'%' && (c == b'd' || c == b'%'))
}

/// Whether a byte stands for itself in a text.
fn is_single(b: u8) -> bool
    ensures { result ≡ spec.is_single b }
{
    b' ' <= b && b <= b'~' && !(b == b'"' || b == b'\\' || b == b'%')
}

/// The number of bytes of a text's first character in quotes, where it may stand there.
fn character_len(text: &[u8]) -> Option<usize>
    requires some { 0 < length text.now }
    requires open { slice_index text.now 0 ≢ 34 }
    ensures { MatchOption result (spec.after_quote text.now ≡ None)
        (λ n. (0 < n) × (n ≤ length text.now) × (spec.after_quote (drop n text.now) ≡ spec.after_quote text.now)) }
{
    if text.len() > 1 && is_pair(text[0], text[1]) {
        return Some(2);
    }
    if is_single(text[0]) {
        return Some(1);
    }
    None
}

/// The length of a text up to and with the quote that closes it.
fn quote_len(text: &[u8]) -> Option<usize>
    ensures { MatchOption result (spec.after_quote text.now ≡ None)
        (λ n. ReadsTo spec.after_quote text.now n) }
{
    let mut at = 0;
    while at < text.len() {
        if text[at] == b'"' {
            return Some(at + 1);
        }
        match character_len(from(text, at)) {
            Some(len) => at += len,
            None => return None,
        }
    }
    None
}

/// The text that begins with a `"`.
pub fn quoted(text: &[u8]) -> Cut
    requires some { 0 < length text.now }
    requires mark { slice_index text.now 0 ≡ 34 }
    ensures { (first : Bool) (place : ℕ) → Cuts first place text.now result }
{
    let Some(len) = quote_len(from(text, 1)) else {
        return Cut {
            lexeme: Lexeme::Refused(Fault::BadText),
            len: 1,
        };
    };
    if len > LONGEST_TEXT + 1 {
        return Cut {
            lexeme: Lexeme::Refused(Fault::BadText),
            len: 1,
        };
    }
    Cut {
        lexeme: Lexeme::Token(Token::Text),
        len: 1 + len,
    }
}
