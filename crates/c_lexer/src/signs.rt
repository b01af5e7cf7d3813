//! Signs.

ghost use Rattle.std.specs.Prelude.{◌≡◌, ◌<◌, ℕ, Bool, List, length};
ghost use Rattle.c_lexer.specs.Signs as spec;
ghost use Rattle.c_lexer.specs.Lexeme.{BySigns};
ghost use Rattle.c_lexer.specs.Cuts.{Cuts, shown};

use crate::piece::{Cut, Fault, Lexeme};
use crate::token::{Sign, Token};

/// The sign that is this byte.
#[tactic(auto, unfolding(crate::specs::Signs::single))]
fn single(b: u8) -> Option<Sign>
    ensures { result ≡ spec.single b }
{
    match b {
        b'(' => Some(Sign::LeftParenthesis),
        b')' => Some(Sign::RightParenthesis),
        b'{' => Some(Sign::LeftBrace),
        b'}' => Some(Sign::RightBrace),
        b'[' => Some(Sign::LeftBracket),
        b']' => Some(Sign::RightBracket),
        b';' => Some(Sign::Semicolon),
        b',' => Some(Sign::Comma),
        b'&' => Some(Sign::Ampersand),
        b'*' => Some(Sign::Star),
        b'=' => Some(Sign::Assign),
        b'<' => Some(Sign::Less),
        b'>' => Some(Sign::Greater),
        b'+' => Some(Sign::Plus),
        b'-' => Some(Sign::Minus),
        b'/' => Some(Sign::Slash),
        b'%' => Some(Sign::Percent),
        b'!' => Some(Sign::Not),
        _ => None,
    }
}

/// The sign that is this byte and `=`.
fn with_equals(b: u8) -> Option<Sign>
    ensures { result ≡ spec.with_equals b }
{
    match b {
        b'=' => Some(Sign::Equal),
        b'!' => Some(Sign::NotEqual),
        b'<' => Some(Sign::LessEqual),
        b'>' => Some(Sign::GreaterEqual),
        b'+' => Some(Sign::AddAssign),
        b'-' => Some(Sign::SubtractAssign),
        b'*' => Some(Sign::MultiplyAssign),
        b'/' => Some(Sign::DivideAssign),
        b'%' => Some(Sign::RemainderAssign),
        _ => None,
    }
}

/// The sign that is this byte twice, but for `==`.
fn twice(b: u8) -> Option<Sign>
    ensures { result ≡ spec.twice b }
{
    match b {
        b'&' => Some(Sign::And),
        b'|' => Some(Sign::Or),
        b'+' => Some(Sign::Increment),
        b'-' => Some(Sign::Decrement),
        _ => None,
    }
}

/// The sign that is these two bytes.
#[tactic(auto, unfolding(crate::specs::Signs::double))]
fn double(b: u8, c: u8) -> Option<Sign>
    ensures { result ≡ spec.double b c }
{
    if c == b'=' {
        with_equals(b)
    } else if b == c {
        twice(b)
    } else {
        None
    }
}

/// The sign of three bytes that a text begins with.
#[tactic(auto, unfolding(crate::specs::Signs::triple))]
fn three_bytes(text: &[u8]) -> Option<Sign>
    ensures { result ≡ spec.three_bytes text.now }
{
    if text.len() > 2 && text[0] == b'.' && text[1] == b'.' && text[2] == b'.' {
        Some(Sign::Ellipsis)
    } else {
        None
    }
}

/// A sign of one byte, or a byte that is refused.
fn one_byte(b: u8) -> Lexeme
    ensures { (place : ℕ) (all : List ℕ) → result ≡ shown place all (spec.one_byte (spec.single b)) }
{
    match single(b) {
        Some(sign) => Lexeme::Token(Token::Sign(sign)),
        None => Lexeme::Refused(Fault::BadByte),
    }
}

/// The sign, or the byte that is refused, that a text begins with.
pub fn sign(text: &[u8]) -> Cut
    requires some { 0 < length text.now }
    requires by { BySigns text.now }
    ensures { (first : Bool) (place : ℕ) → Cuts first place text.now result }
{
    if text.len() <= 1 {
        return Cut {
            lexeme: one_byte(text[0]),
            len: 1,
        };
    }
    if let Some(sign) = three_bytes(text) {
        return Cut {
            lexeme: Lexeme::Token(Token::Sign(sign)),
            len: 3,
        };
    }
    match double(text[0], text[1]) {
        Some(sign) => Cut {
            lexeme: Lexeme::Token(Token::Sign(sign)),
            len: 2,
        },
        None => Cut {
            lexeme: one_byte(text[0]),
            len: 1,
        },
    }
}
