//! Comments.

ghost use Rattle.std.specs.Prelude.{◌≡◌, ◌<◌, ◌≤◌, ℕ, Bool, None, length, slice_index, MatchOption};
ghost use Rattle.std.specs.List.{prefix_len};
ghost use Rattle.c_lexer.specs.Classes as classes;
ghost use Rattle.c_lexer.specs.Readings as spec;
ghost use Rattle.c_lexer.specs.Lexeme.{ReadsTo};
ghost use Rattle.c_lexer.specs.Cuts.{Cuts};

use crate::piece::{Cut, Fault, Lexeme};
use crate::places::from;
use crate::signs::sign;

/// The length of a text up to and with its first `*/`.
pub fn close_len(text: &[u8]) -> Option<usize>
    ensures { MatchOption result (spec.after_close text.now ≡ None)
        (λ n. ReadsTo spec.after_close text.now n) }
{
    let mut at = 0;
    while at + 1 < text.len() {
        if text[at] == b'*' && text[at + 1] == b'/' {
            return Some(at + 2);
        }
        at += 1;
    }
    None
}

/// The length of a text's first line, without its newline.
pub fn line_len(text: &[u8]) -> usize
    ensures within { result ≤ length text.now }
    ensures value { result ≡ prefix_len classes.in_line text.now }
{
    let mut len = 0;
    while len < text.len() && text[len] != b'\n' {
        len += 1;
    }
    len
}

fn block_comment(text: &[u8]) -> Cut
    requires some { 1 < length text.now }
    requires slash { slice_index text.now 0 ≡ 47 }
    requires star { slice_index text.now 1 ≡ 42 }
    ensures { (first : Bool) (place : ℕ) → Cuts first place text.now result }
{
    match close_len(from(text, 2)) {
        Some(len) => Cut {
            lexeme: Lexeme::Skip,
            len: 2 + len,
        },
        None => Cut {
            lexeme: Lexeme::Refused(Fault::OpenComment),
            len: text.len(),
        },
    }
}

fn line_comment(text: &[u8]) -> Cut
    requires some { 1 < length text.now }
    requires slash { slice_index text.now 0 ≡ 47 }
    requires again { slice_index text.now 1 ≡ 47 }
    ensures { (first : Bool) (place : ℕ) → Cuts first place text.now result }
{
    Cut {
        lexeme: Lexeme::Skip,
        len: 2 + line_len(from(text, 2)),
    }
}

/// The comment or the sign that begins with a `/`.
pub fn slash(text: &[u8]) -> Cut
    requires some { 0 < length text.now }
    requires slash { slice_index text.now 0 ≡ 47 }
    ensures { (first : Bool) (place : ℕ) → Cuts first place text.now result }
{
    if text.len() <= 1 {
        return sign(text);
    }
    if text[1] == b'*' {
        return block_comment(text);
    }
    if text[1] == b'/' {
        return line_comment(text);
    }
    sign(text)
}
