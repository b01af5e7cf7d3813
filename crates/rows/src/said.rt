// What the parser and the rules answer to a text.

use c_check::{CheckError, check};
use c_lexer::LexError;
use c_parser::{ParseError, parse};
use c_rules::{Count, Rule};
use c_tree::{Mode, Program};
use std::alloc::{AllocError, Global};

/// The longest text that is asked about, in bytes.
const LONGEST: usize = 1000000;

/// The most functions of a program that is asked about.
const MOST: usize = 1000000;

/// What the parser answers to a text, its tree apart.
#[derive(Clone, Copy, Debug, PartialEq, Eq)]
enum ParserSays {
    /// It is read.
    Read,
    /// A token on this line is the failing one.
    Syntax(u32),
    /// A token on this line is too deep.
    TooDeep(u32),
    /// The lexer refuses it.
    Lex(LexError),
    /// It has too many tokens.
    TooMany,
    /// There isn't enough memory, or the text is too long to be asked about.
    Memory,
}

/// What the rules answer to a program, its table apart.
#[derive(Clone, Copy, Debug, PartialEq, Eq)]
enum RulesSay {
    /// It is well formed.
    Formed,
    /// This rule is broken first, on this line.
    Broken(Rule, u32),
    /// There are more of these than this number.
    TooMany(Count, u32),
    /// The text is no program.
    Unread,
    /// There isn't enough memory, or the program is too large to be asked about.
    Memory,
}

/// What the parser answers.
fn reading(alloc: Global, text: &[u8]) -> ParserSays {
    if text.len() > LONGEST {
        return ParserSays::Memory;
    }
    match parse(alloc, text) {
        Ok(_) => ParserSays::Read,
        Err(ParseError::Lex(error)) => ParserSays::Lex(error),
        Err(ParseError::Syntax { line }) => ParserSays::Syntax(line),
        Err(ParseError::TooDeep { line }) => ParserSays::TooDeep(line),
        Err(ParseError::TooManyTokens) => ParserSays::TooMany,
        Err(ParseError::Memory) => ParserSays::Memory,
    }
}

/// What the parser answers, in words.
pub fn read(alloc: Global, text: &[u8]) -> Result<String, AllocError> {
    let answer = reading(alloc, text);
    format!(in alloc; "{answer:?}")
}

/// The program of a text, if it is one.
pub fn program_of(alloc: Global, text: &[u8]) -> Option<Program> {
    if text.len() > LONGEST {
        return None;
    }
    let program = parse(alloc, text).ok()?;
    if program.functions.len() < MOST {
        Some(program)
    } else {
        None
    }
}

/// What the rules answer.
fn judged(alloc: Global, text: &[u8], mode: Mode) -> RulesSay {
    let Some(p) = program_of(alloc, text) else {
        return RulesSay::Unread;
    };
    if p.functions.len() >= MOST {
        return RulesSay::Memory;
    }
    match check(alloc, &p, mode) {
        Ok(_) => RulesSay::Formed,
        Err(CheckError::Rule { rule, line }) => RulesSay::Broken(rule, line),
        Err(CheckError::TooMany { what, limit }) => RulesSay::TooMany(what, limit),
        Err(CheckError::Memory) => RulesSay::Memory,
    }
}

/// What the rules answer, in words.
pub fn ruled(alloc: Global, text: &[u8], mode: Mode) -> Result<String, AllocError> {
    let answer = judged(alloc, text, mode);
    format!(in alloc; "{answer:?}")
}
