//! A text, read token by token.

ghost use Rattle.std.specs.Prelude.{◌≡◌, ◌<◌, ◌≤◌, ◌^◌, ℕ, suc, Ok, Some, List, length, take, drop, slice_range, IfOk, OnOk};
ghost use Rattle.std.specs.List.{count_by};
ghost use Rattle.c_lexer.specs.Classes.{is_newline};
ghost use Rattle.c_lexer.specs.Laws.{slice};
ghost use Rattle.c_tokens.specs.Reading.{IsRead, end_of};
ghost use Rattle.c_lexer.specs.Tokens.{Next};
ghost use Rattle.c_lexer.specs.Laws.{IsInside};
ghost use Rattle.c_tokens.specs.Reader.{Stands};

use crate::mark::what;
use crate::words::{Known, known_words};
use c_expressions::token::Marked;
use c_lexer::{LexError, Span, Token, next_token};
use std::alloc::{AllocError, Global};

/// The most tokens that are read of a text.
pub const MOST_TOKENS: usize = 65536;

/// Why reading ended.
#[derive(Clone, Copy, Debug)]
pub enum End {
    /// The text ends.
    Text,
    /// What follows is refused.
    Refused(LexError),
    /// The most tokens were read, and one more follows.
    Longer,
}

/// What was read of a text.
#[derive(Debug, Drop)]
pub struct Tokens {
    /// The tokens, in the order of the text.
    pub marks: Vec<Marked>,
    /// Why there are no more.
    pub end: End,
}

/// How many newlines stand between two places of a text.
fn newlines(text: &[u8], start: usize, end: usize) -> usize
    requires order { start ≤ end }
    requires within { end ≤ length text.now }
    ensures count { result ≡ count_by is_newline (slice text.now start end) }
    ensures few { result ≤ end }
{
    text[start..end].iter().filter(|b| **b == b'\n').count()
}

/// Why no more is read, by what is found next.
fn end_of(found: Result<Option<(Token, Span)>, LexError>) -> End
    ensures { result ≡ end_of found }
{
    match found {
        Ok(Some(_)) => End::Longer,
        Ok(None) => End::Text,
        Err(error) => End::Refused(error),
    }
}

/// How far a text was read.
#[derive(Drop)]
struct Reader<'t> {
    text: &'t [u8],
    at: usize,
    line: u32,
    known: Known<'t>,
    marks: Vec<Marked>,
}

/// Reads one token. The one error is want of memory.
fn step<'t>(reader: &mut Reader<'t>, token: Token, span: Span) -> Result<(), AllocError>
    requires fits { length reader.old.text.now < 2 ^ 31 }
    requires stands { Stands reader.old.text.now reader.old }
    requires next { Next (take reader.old.at reader.old.text.now) (drop reader.old.at reader.old.text.now) (Ok (Some (token, span))) }
    requires inside { IsInside reader.old.at (length reader.old.text.now) (Ok (Some (token, span))) }
    ensures stands { OnOk result (Stands reader.old.text.now reader.new) }
    ensures place { OnOk result (reader.new.at ≡ span.end) }
    ensures more { OnOk result (length reader.new.marks.items ≡ suc (length reader.old.marks.items)) }
{
    reader.line += newlines(reader.text, reader.at, span.start) as u32;
    let what = what(reader.text, &mut reader.known, token, span)?;
    reader.marks.push(Marked {
        line: reader.line,
        what,
    })?;
    reader.line += newlines(reader.text, span.start, span.end) as u32;
    reader.at = span.end;
    Ok(())
}

/// Reads the tokens of a text, which has fewer than 2^31 bytes. The one error is want of memory.
pub fn read_tokens(alloc: Global, text: &[u8]) -> Result<Tokens, AllocError>
    requires { length text.now < 2 ^ 31 }
    ensures { IfOk result (λ t. IsRead text.now t) }
{
    let mut reader = Reader {
        text,
        at: 0,
        line: 1,
        known: known_words(alloc)?,
        marks: Vec::new(alloc),
    };
    while reader.marks.len() < MOST_TOKENS {
        match next_token(text, reader.at) {
            Ok(Some((token, span))) => step(&mut reader, token, span)?,
            Ok(None) => {
                return Ok(Tokens {
                    marks: reader.marks,
                    end: End::Text,
                });
            }
            Err(error) => {
                return Ok(Tokens {
                    marks: reader.marks,
                    end: End::Refused(error),
                });
            }
        }
    }
    let end = end_of(next_token(text, reader.at));
    Ok(Tokens {
        marks: reader.marks,
        end,
    })
}
