//! Preprocessor lines.

ghost use Rattle.std.specs.Prelude.{◌≡◌, ◌<◌, ◌≤◌, ◌+◌, ◌^◌, ℕ, Bool, Some, None, Ok, Err, true, false, length, take, drop, codes, slice_index, MatchOption, MatchResult};
ghost use Rattle.std.specs.List.{list_all, prefix_len};
ghost use Rattle.c_lexer.specs.Classes as classes;
ghost use Rattle.c_lexer.specs.Directives as spec;
ghost use Rattle.c_lexer.specs.Lexeme.{ReadsTo};
ghost use Rattle.c_lexer.specs.Cuts.{Cuts, IsNaming, IsDefinition, IsDefinitionLine};

use crate::classes::{is_line_blank, is_space};
use crate::comments::{close_len, line_len};
use crate::piece::{Cut, Fault, Lexeme};
use crate::places::from;
use crate::token::{Span, Token};
use crate::words::{name_len, number_value, word_len};

/// A name, spaces and a number: the lengths of the name and of all, and the number.
#[derive(Clone, Copy)]
pub struct Naming {
    pub name_len: usize,
    pub value: u32,
    pub len: usize,
}

/// A definition after its `#`: the place of the name, the number, and the length of all.
#[derive(Clone, Copy)]
pub struct Definition {
    pub name: Span,
    pub value: u32,
    pub len: usize,
}

/// Whether a text begins with these bytes.
fn begins(text: &[u8], bytes: &[u8]) -> bool
    ensures yes { result ≡ true → ReadsTo (spec.after_bytes bytes.now) text.now (length bytes.now) }
    ensures no { result ≡ false → spec.after_bytes bytes.now text.now ≡ None }
{
    text.starts_with(bytes)
}

/// How many spaces and tabs a text begins with.
fn spaces_len(text: &[u8]) -> usize
    ensures within { result ≤ length text.now }
    ensures value { result ≡ prefix_len classes.is_space text.now }
{
    let mut len = 0;
    while len < text.len() && is_space(text[len]) {
        len += 1;
    }
    len
}

/// How many spaces and tabs a text begins with, where it does with at least one.
fn gap_len(text: &[u8]) -> Option<usize>
    ensures { MatchOption result (spec.after_gap text.now ≡ None)
        (λ n. ReadsTo spec.after_gap text.now n × (n ≡ prefix_len classes.is_space text.now)) }
{
    let len = spaces_len(text);
    if len > 0 { Some(len) } else { None }
}

/// The length of the header in brackets that a text begins with.
fn header_len(text: &[u8]) -> Option<usize>
    ensures { MatchOption result (spec.after_one_of spec.headers text.now ≡ None)
        (λ n. ReadsTo (spec.after_one_of spec.headers) text.now n) }
{
    if begins(text, b"<pthread.h>") {
        return Some(11);
    }
    if begins(text, b"<stdio.h>") {
        return Some(9);
    }
    if begins(text, b"<stdlib.h>") || begins(text, b"<stdint.h>") || begins(text, b"<unistd.h>") {
        return Some(10);
    }
    None
}

/// The length of an include after its `#`.
#[tactic(auto, unfolding(crate::specs::Directives::after_include))]
fn include_len(text: &[u8]) -> Option<usize>
    ensures { MatchOption result (spec.after_include text.now ≡ None)
        (λ n. ReadsTo spec.after_include text.now n) }
{
    if !begins(text, b"include") {
        return None;
    }
    let header = 7 + spaces_len(from(text, 7));
    match header_len(from(text, header)) {
        Some(len) => Some(header + len),
        None => None,
    }
}

/// What a text defines that begins with the defined name.
fn defined_name(text: &[u8]) -> Option<Naming>
    ensures { MatchOption result (spec.defined_name text.now ≡ None)
        (λ d. IsNaming text.now d) }
{
    let Some(name_len) = name_len(text) else {
        return None;
    };
    let Some(gap) = gap_len(from(text, name_len)) else {
        return None;
    };
    let number = name_len + gap;
    let rest = from(text, number);
    let number_len = word_len(rest);
    let Some(value) = number_value(&rest[..number_len]) else {
        return None;
    };
    Some(Naming {
        name_len,
        value,
        len: number + number_len,
    })
}

/// The definition up to the end of its number, after its `#`.
#[tactic(auto, unfolding(crate::specs::Directives::definition))]
fn begun_definition(text: &[u8]) -> Option<Definition>
    ensures { MatchOption result (spec.definition text.now ≡ None) (λ d. IsDefinition text.now d) }
{
    if !begins(text, b"define") {
        return None;
    }
    let Some(gap) = gap_len(from(text, 6)) else {
        return None;
    };
    let start = 6 + gap;
    let Some(naming) = defined_name(from(text, start)) else {
        return None;
    };
    Some(Definition {
        name: Span {
            start,
            end: start + naming.name_len,
        },
        value: naming.value,
        len: start + naming.len,
    })
}

fn is_one_line(text: &[u8]) -> bool
    ensures { result ≡ list_all classes.in_line text.now }
{
    text.iter().all(|b| *b != b'\n')
}

/// The length of the rest of a comment, which is to end on its line.
fn tail_comment_len(text: &[u8]) -> Result<usize, Fault>
    ensures { MatchResult result (λ n. (n ≤ length text.now) × (spec.tail_comment text.now ≡ spec.tail (drop n text.now)))
        (λ fault. spec.tail_comment text.now ≡ Err fault) }
{
    let Some(len) = close_len(text) else {
        return Err(Fault::OpenComment);
    };
    if is_one_line(&text[..len]) {
        Ok(len)
    } else {
        Err(Fault::BadLine)
    }
}

/// The length of the blank or comment that a text begins with, where it may end a definition's line.
fn tail_part_len(text: &[u8]) -> Result<usize, Fault>
    requires some { 0 < length text.now }
    requires inside { classes.in_line (slice_index text.now 0) ≡ true }
    ensures { MatchResult result
        (λ n. (0 < n) × (n ≤ length text.now) × (spec.tail text.now ≡ spec.tail (drop n text.now)))
        (λ fault. spec.tail text.now ≡ Err fault) }
{
    if is_line_blank(text[0]) {
        return Ok(1);
    }
    if text[0] != b'/' || text.len() <= 1 {
        return Err(Fault::BadLine);
    }
    if text[1] == b'*' {
        return Ok(2 + tail_comment_len(from(text, 2))?);
    }
    if text[1] == b'/' {
        return Ok(2 + line_len(from(text, 2)));
    }
    Err(Fault::BadLine)
}

/// The length of what follows a definition's number on its line, where it is blanks and comments.
fn tail_len(text: &[u8]) -> Result<usize, Fault>
    ensures { MatchResult result (λ n. (n ≤ length text.now) × (spec.tail text.now ≡ Ok (drop n text.now)))
        (λ fault. spec.tail text.now ≡ Err fault) }
{
    let mut at = 0;
    while at < text.len() && text[at] != b'\n' {
        at += tail_part_len(from(text, at))?;
    }
    Ok(at)
}

/// The definition after a `#`, up to the end of its line.
fn definition_line(text: &[u8]) -> Result<Definition, Fault>
    ensures { MatchResult result (λ d. IsDefinitionLine text.now d)
        (λ fault. spec.definition_line text.now (spec.definition text.now) ≡ spec.refused_hash fault text.now) }
{
    match begun_definition(text) {
        Some(definition) => {
            let tail = tail_len(from(text, definition.len))?;
            Ok(Definition {
                name: definition.name,
                value: definition.value,
                len: definition.len + tail,
            })
        }
        None => Err(Fault::BadLine),
    }
}

/// The line that begins with a `#`, which stands at a place.
fn line(text: &[u8], place: usize) -> Cut
    requires some { 0 < length text.now }
    requires hash { slice_index text.now 0 ≡ 35 }
    requires fits { place + length text.now < 2 ^ 31 }
    ensures { Cuts true place text.now result }
{
    let rest = from(text, 1);
    if let Some(len) = include_len(rest) {
        return Cut {
            lexeme: Lexeme::Skip,
            len: 1 + len,
        };
    }
    match definition_line(rest) {
        Ok(definition) => {
            let name = Span {
                start: place + 1 + definition.name.start,
                end: place + 1 + definition.name.end,
            };
            Cut {
                lexeme: Lexeme::Token(Token::Define(name, definition.value)),
                len: 1 + definition.len,
            }
        }
        Err(fault) => Cut {
            lexeme: Lexeme::Refused(fault),
            len: 1,
        },
    }
}

/// What begins with a `#`, which stands at a place and is the first on its line or isn't.
pub fn hash(text: &[u8], place: usize, first: bool) -> Cut
    requires some { 0 < length text.now }
    requires hash { slice_index text.now 0 ≡ 35 }
    requires fits { place + length text.now < 2 ^ 31 }
    ensures { Cuts first place text.now result }
{
    if first {
        line(text, place)
    } else {
        Cut {
            lexeme: Lexeme::Refused(Fault::BadLine),
            len: 1,
        }
    }
}
