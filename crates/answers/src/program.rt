// Reading the text of a program.
ghost use Rattle.std.specs.Prelude.{◌≡◌, ◌<◌, ◌^◌, length, Err, MatchResult};
ghost use Rattle.c_tree.specs.Lined.{program_of};
ghost use Rattle.c_check.specs.Checked.{IsRefusal};
ghost use Rattle.c_parser.specs.Parsed.{SpelledBy, Parsed};
ghost use Rattle.answers.specs.Refusing.{Declines, RefusedAs, LimitedAs, IsRead};
ghost use Rattle.answers.specs.Programs.{flaws};

use crate::answer::complained;
use crate::lines;
use crate::reasons::{line_of, name_of_count, reason_of, reason_of_rule};
use crate::refusal::Refusal;
use crate::status::Status;
use c_check::{CheckError, Table, check};
use c_parser::{ParseError, parse};
use c_tree::{Mode, Program};
use std::alloc::Global;

/// A well-formed program with its numbers.
#[derive(Drop)]
pub struct Formed {
    /// The program.
    pub program: Program,
    /// Its numbers.
    pub table: Table,
}

/// A file is refused at a line, from 1, for a reason.
pub fn refused(alloc: Global, name: &str, line: u32, reason: &str) -> Refusal
    ensures { RefusedAs result name.now line reason.now }
{
    match lines::refused(alloc, name, line, reason) {
        Ok(line) => Refusal::Told(complained(Status::Refused, line)),
        Err(_) => Refusal::Memory,
    }
}

/// A file passes the limit of something, which is this number.
pub fn limited(alloc: Global, name: &str, what: &str, number: u32) -> Refusal
    ensures { LimitedAs result name.now what.now number }
{
    match lines::limited(alloc, name, what, number) {
        Ok(line) => Refusal::Told(complained(Status::Limit, line)),
        Err(_) => Refusal::Memory,
    }
}

/// What is answered of a text that spells no program within the limits.
fn unspelled(alloc: Global, name: &str, bytes: &[u8], mode: Mode, error: ParseError) -> Refusal
    requires { Parsed bytes.now (Err error) }
    ensures { Declines (flaws mode name.now bytes.now) result }
{
    match error {
        ParseError::Lex(error) => refused(alloc, name, line_of(error), reason_of(error)),
        ParseError::Syntax { line } => refused(alloc, name, line, "syntax"),
        ParseError::TooDeep { .. } => limited(alloc, name, "depth", 64),
        ParseError::TooManyTokens => limited(alloc, name, "tokens", 65536),
        ParseError::Memory => Refusal::Memory,
    }
}

/// What is answered of a text that spells this program, which isn't well formed.
fn malformed(
    alloc: Global,
    name: &str,
    bytes: &[u8],
    mode: Mode,
    program: &Program,
    error: CheckError,
) -> Refusal
    requires spelled { SpelledBy bytes.now (program_of program.now) }
    requires refused { IsRefusal (program_of program.now) mode error }
    ensures { Declines (flaws mode name.now bytes.now) result }
{
    match error {
        CheckError::Rule { rule, line } => refused(alloc, name, line, reason_of_rule(rule)),
        CheckError::TooMany { what, limit } => limited(alloc, name, name_of_count(what), limit),
        CheckError::Memory => Refusal::Memory,
    }
}

/// The well-formed program that a text spells, with monitors or without, and its numbers.
pub fn read_program(alloc: Global, name: &str, bytes: &[u8], mode: Mode) -> Result<Formed, Refusal>
    requires { length bytes.now < 2 ^ 31 }
    ensures { MatchResult result (IsRead mode bytes.now) (Declines (flaws mode name.now bytes.now)) }
{
    let program = match parse(alloc, bytes) {
        Ok(program) => program,
        Err(error) => return Err(unspelled(alloc, name, bytes, mode, error)),
    };
    match check(alloc, &program, mode) {
        Ok(table) => Ok(Formed { program, table }),
        Err(error) => Err(malformed(alloc, name, bytes, mode, &program, error)),
    }
}
