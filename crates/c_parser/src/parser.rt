//! The parser of texts.

ghost use Rattle.std.specs.Prelude.{◌≡◌, ◌<◌, ◌≤◌, ◌^◌, ℕ, length, Ok, Err, IfOk};
ghost use Rattle.std.specs.List.{count_by};
ghost use Rattle.c_lexer.specs.declared.token.LexError.{LexError as AnyLexError};
ghost use Rattle.c_lexer.specs.Classes.{is_newline};
ghost use Rattle.c_lexer.specs.Tokens.{line};
ghost use Rattle.c_tree.specs.Lined.{program_of, Program as PlainProgram};
ghost use Rattle.c_tokens.specs.Reading.{IsRead};
ghost use Rattle.c_parser.specs.declared.error.ParseError.TheVariants.{Lex, Syntax, TooDeep, TooManyTokens};
ghost use Rattle.c_parser.specs.Answer.{shown, fault_at, when_read, when_failed, when_left};
ghost use Rattle.c_parser.specs.Parsed.{Parsed, SpelledBy, RefusedBy, FailsOnLine, TooDeepOnLine, GoesOnTooLong, Is};

use crate::error::ParseError;
use c_expressions::tall::Tall;
use c_expressions::token::Marked;
use c_programs::program::program;
use c_tokens::{End, Tokens, read_tokens};
use c_tree::Program;
use parse_laws::fault::{Fault, Refusal};
use std::alloc::Global;

/// How many levels a program may take.
const LEVELS: u8 = 64;

/// A fault of a token on this line.
fn fault_at(fault: Fault, line: u32) -> ParseError
    ensures { result ≡ fault_at fault line }
{
    match fault {
        Fault::Syntax => ParseError::Syntax { line },
        Fault::TooDeep => ParseError::TooDeep { line },
    }
}

/// All tokens were read as a program. It is the answer where the text ends there.
fn when_read(program: Program, end: End) -> Result<Program, ParseError>
    ensures is { shown result ≡ when_read (program_of program) end }
    ensures same { IfOk result (λ p. p ≡ program) }
{
    match end {
        End::Text => Ok(program),
        End::Refused(error) => Err(ParseError::Lex(error)),
        End::Longer => Err(ParseError::TooManyTokens),
    }
}

/// All tokens were read, and they are no program, in a text that ends on this line.
fn when_failed(end: End, line: u32) -> ParseError
    ensures { result ≡ when_failed end line }
{
    match end {
        End::Text => ParseError::Syntax { line },
        End::Refused(error) => ParseError::Lex(error),
        End::Longer => ParseError::TooManyTokens,
    }
}

/// A fault at the first of these tokens, or behind the last one where there are none.
fn when_left(fault: Fault, rest: &[Marked], end: End, line: u32) -> ParseError
    ensures { result ≡ when_left fault rest.now end line }
{
    match rest.first() {
        Some(token) => fault_at(fault, token.line),
        None => when_failed(end, line),
    }
}

/// How many newlines a text has.
fn newlines(text: &[u8]) -> usize
    ensures count { result ≡ count_by is_newline text.now }
    ensures few { result ≤ length text.now }
{
    text.iter().filter(|b| **b == b'\n').count()
}

/// The line of the end of a text, from 1.
fn last_line(text: &[u8]) -> u32
    requires { length text.now < 2 ^ 31 }
    ensures { result ≡ line text.now }
{
    newlines(text) as u32 + 1
}

/// Reads the program of a text's tokens.
fn parse_tokens(alloc: Global, text: &[u8], tokens: &Tokens) -> Result<Program, ParseError>
    requires short { length text.now < 2 ^ 31 }
    requires read { IsRead text.now tokens.now }
    ensures cause { Parsed text.now (shown result) }
    ensures few { IfOk result (λ p. length p.functions ≤ 65536) }
{
    let line = last_line(text);
    match program(alloc, text, LEVELS, line, &tokens.marks) {
        Ok((program, rest)) if rest.is_empty() => when_read(program.tree, tokens.end),
        Ok((_, rest)) => Err(when_left(Fault::Syntax, rest, tokens.end, line)),
        Err(Refusal::At(fault, rest)) => Err(when_left(fault, rest, tokens.end, line)),
        Err(Refusal::Memory) => Err(ParseError::Memory),
    }
}

/// Reads the program that a text spells, with the lines of the text.
///
/// The text has fewer than 2^31 bytes. A program may take 64 levels: a statement of a function stands on the first,
/// a statement of an arm one below its `if`, `while` or `for`, an expression, or the trylock that an `if` tests, one
/// below its statement, and what stands in an operand, an index or parentheses one below that. A text may have 65,536 tokens. The answer is the first of
/// these in the order of the text:
///
/// - `Lex`: the tokens so far begin a program within the levels, and the lexer refuses what follows.
/// - `Syntax`: with the token on this line they begin no program. At the end of the text, whose line is one more than
///   its newlines: they are no program.
/// - `TooDeep`: with the token on this line they begin only programs that take more levels.
/// - `TooManyTokens`: 65,536 tokens begin a program within the levels, and another token follows.
///
/// `Memory` may come at any time. A program has at most 65,536 functions.
pub fn parse(alloc: Global, text: &[u8]) -> Result<Program, ParseError>
    requires { length text.now < 2 ^ 31 }
    ensures cause { Parsed text.now (shown result) }
    ensures program { (p : PlainProgram) → SpelledBy text.now p → Is (shown result) (Ok p) }
    ensures lex { (e : AnyLexError) → RefusedBy text.now e → Is (shown result) (Err (Lex e)) }
    ensures syntax { (on : ℕ) → FailsOnLine text.now on → Is (shown result) (Err (Syntax on)) }
    ensures too_deep { (on : ℕ) → TooDeepOnLine text.now on → Is (shown result) (Err (TooDeep on)) }
    ensures too_many { GoesOnTooLong text.now → Is (shown result) (Err TooManyTokens) }
    ensures few { IfOk result (λ p. length p.functions ≤ 65536) }
{
    let tokens = read_tokens(alloc, text)?;
    parse_tokens(alloc, text, &tokens)
}
