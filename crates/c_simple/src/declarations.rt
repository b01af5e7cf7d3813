//! The parser of declarations of locals.

ghost use Rattle.std.specs.Prelude.{◌≡◌, ◌≤◌, IfOk};
ghost use Rattle.parse_laws.specs.Parser.{commit, refuse};
ghost use Rattle.c_expressions.specs.Gives.{sight, tall_of};
ghost use Rattle.c_simple.specs.Gives.{GivesStatements, statements_of};
ghost use Rattle.c_simple.specs.Parsers as spec;

use crate::assignments::ParsedStatements;
use crate::trees::{bare, declared_as, followed};
use crate::values::value_or_call;
use c_expressions::tall::Tall;
use c_expressions::token::{Marked, Setting, is_sign, name};
use c_lexer::Sign;
use c_tree::Stmts;
use parse_laws::fault::{Fault, Refusal};
use parse_laws::token::next;
use std::alloc::Global;

// Behind a name and `=`.
fn declared_by<'a>(
    alloc: Global,
    setting: Setting,
    room: u8,
    line: u32,
    name: &[u8],
    tokens: &'a [Marked],
) -> ParsedStatements<'a>
    requires { room ≤ 64 }
    ensures { GivesStatements result (spec.declared_by_source (sight setting.entry) room line name.now tokens.now) }
{
    let (source, rest) = value_or_call(alloc, setting, room, tokens)?;
    Ok((declared_as(alloc, line, name, source)?, rest))
}

// Behind the name that is declared.
#[tactic(auto, unfolding(crate::specs::Parsers::declared))]
fn declared<'a>(
    alloc: Global,
    setting: Setting,
    room: u8,
    line: u32,
    name: &[u8],
    tokens: &'a [Marked],
) -> ParsedStatements<'a>
    requires { room ≤ 64 }
    ensures { GivesStatements result (spec.declared (sight setting.entry) room line name.now tokens.now) }
{
    if let Some((token, rest)) = next(tokens) {
        if is_sign(Sign::Assign, token.what) {
            return declared_by(alloc, setting, room, line, name, rest);
        }
    }
    Ok((bare(alloc, line, name)?, tokens))
}

/// Reads one name that is declared, and its value if it has one, which may take `room` levels.
#[tactic(auto, unfolding(crate::specs::Parsers::declarator))]
pub fn declarator<'a>(
    alloc: Global,
    setting: Setting,
    room: u8,
    tokens: &'a [Marked],
) -> ParsedStatements<'a>
    requires { room ≤ 64 }
    ensures { GivesStatements result (spec.declarator (sight setting.entry) room tokens.now) }
{
    match next(tokens) {
        Some((token, rest)) => match name(setting.text, token.what) {
            Some(name) => declared(alloc, setting, room, token.line, name, rest),
            None => Err(Refusal::At(Fault::Syntax, tokens)),
        },
        None => Err(Refusal::At(Fault::Syntax, tokens)),
    }
}

// One more, behind others.
fn one_more<'a>(
    alloc: Global,
    setting: Setting,
    room: u8,
    all: Tall<Stmts>,
    tokens: &'a [Marked],
) -> ParsedStatements<'a>
    requires { room ≤ 64 }
    ensures { GivesStatements result (spec.one_more (sight setting.entry) room (tall_of statements_of all) tokens.now) }
{
    let (more, rest) = declarator(alloc, setting, room, tokens)?;
    Ok((followed(all, more)?, rest))
}

fn is_comma(setting: Setting, tokens: &[Marked]) -> bool
    ensures { result ≡ spec.comma_comes (sight setting.entry) tokens.now }
{
    match next(tokens) {
        Some((token, _)) => is_sign(Sign::Comma, token.what),
        None => false,
    }
}

// A comma, and one more.
fn turn<'a>(
    alloc: Global,
    setting: Setting,
    room: u8,
    all: Tall<Stmts>,
    tokens: &'a [Marked],
) -> ParsedStatements<'a>
    requires { room ≤ 64 }
    ensures { GivesStatements result (commit (spec.comma_by (sight setting.entry) room (tall_of statements_of all)) refuse tokens.now) }
{
    match next(tokens) {
        Some((token, rest)) => {
            if !is_sign(Sign::Comma, token.what) {
                Err(Refusal::At(Fault::Syntax, tokens))
            } else if all.levels > room + 1 {
                Err(Refusal::At(Fault::TooDeep, tokens))
            } else {
                one_more(alloc, setting, room, all, rest)
            }
        }
        None => Err(Refusal::At(Fault::Syntax, tokens)),
    }
}

// The names behind those read so far.
fn more_declarators<'a>(
    alloc: Global,
    setting: Setting,
    room: u8,
    all: Tall<Stmts>,
    tokens: &'a [Marked],
) -> ParsedStatements<'a>
    requires { room ≤ 64 }
    ensures { GivesStatements result (spec.more_declarators (sight setting.entry) room (tall_of statements_of all) tokens.now) }
{
    let mut all = all;
    let mut rest = tokens;
    'turns: while is_comma(setting, rest) {
        let (more, after) = turn(alloc, setting, room, all, rest)?;
        all = more;
        rest = after;
    }
    Ok((all, rest))
}

/// Reads what follows `int`: names with commas between them, each with its value if it has one.
#[tactic(auto, unfolding(crate::specs::Parsers::declarators))]
pub fn declarators<'a>(
    alloc: Global,
    setting: Setting,
    room: u8,
    tokens: &'a [Marked],
) -> ParsedStatements<'a>
    requires { room ≤ 64 }
    ensures { GivesStatements result (spec.declarators (sight setting.entry) room tokens.now) }
{
    let (first, rest) = declarator(alloc, setting, room, tokens)?;
    more_declarators(alloc, setting, room, first, rest)
}
