//! The parser of statements and of what they hold. Each function reads what the function of its name in `specs/`
//! does.

ghost use Rattle.std.specs.Prelude.{◌≡◌, ◌+◌, ◌≤◌, ◌∷◌, IfOk};
ghost use Rattle.c_tree.specs.Expressions.{expr_of};
ghost use Rattle.c_grammar.specs.Levels as grammar;
ghost use Rattle.parse_laws.specs.Parser.{commit, many, refuse};
ghost use Rattle.c_expressions.specs.Gives.{sight, tall_of};
ghost use Rattle.c_simple.specs.Gives.{GivesStatements, statements_of};
ghost use Rattle.c_statements.specs.Gives.{choice_of};
ghost use Rattle.c_statements.specs.Parsers as spec;

use crate::part::{condition, first, last, middle};
use crate::tested::trial;
use crate::tree::{Parts, Test, chosen, counted, nothing, repeated};
use crate::word::{Opening, begins, is_else, statement_opening};
use c_expressions::expression::sign;
use c_expressions::tall::Tall;
use c_expressions::token::{Marked, Setting, is_sign};
use c_lexer::Sign;
use c_simple::assignments::ParsedStatements;
use c_simple::simple::{begins_simple, simple};
use c_simple::trees::followed;
use c_tree::{Kind, Stmts};
use parse_laws::fault::{Fault, Refusal};
use parse_laws::token::next;
use std::alloc::Global;

/// A statement comes, or what is too deep for one.
pub fn is_statement(setting: Setting, tokens: &[Marked]) -> bool
    ensures { result ≡ spec.statement_comes (sight setting.entry) tokens.now }
{
    match next(tokens) {
        Some((token, _)) => begins(setting, token),
        None => false,
    }
}

// Statements behind those read so far.
#[cycle(statements)]
fn more_statements<'a>(
    alloc: Global,
    setting: Setting,
    kind: Kind,
    room: u8,
    all: Tall<Stmts>,
    tokens: &'a [Marked],
) -> ParsedStatements<'a>
    requires small { room ≤ 64 }
    requires all { all.levels ≤ room }
    ensures gives { GivesStatements result (many (spec.statement_by (sight setting.entry) kind room) grammar.followed (tall_of statements_of all) tokens.now) }
    ensures low { IfOk result (λ x. x.0.levels ≤ room) }
{
    let mut all = all;
    let mut rest = tokens;
    'turns: while is_statement(setting, rest) {
        let (more, after) = statement(alloc, setting, kind, room, rest)?;
        all = followed(all, more)?;
        rest = after;
    }
    Ok((all, rest))
}

// Behind `{`.
#[cycle(statements)]
#[tactic(auto, unfolding(crate::specs::Parsers::block))]
fn block<'a>(
    alloc: Global,
    setting: Setting,
    kind: Kind,
    room: u8,
    tokens: &'a [Marked],
) -> ParsedStatements<'a>
    requires { room ≤ 64 }
    ensures gives { GivesStatements result (spec.block (sight setting.entry) (spec.statement_by (sight setting.entry) kind room) tokens.now) }
    ensures low { IfOk result (λ x. x.0.levels ≤ room) }
{
    let (all, rest) = more_statements(alloc, setting, kind, room, nothing(alloc), tokens)?;
    let (_, rest) = sign(setting, Sign::RightBrace, rest)?;
    Ok((all, rest))
}

/// Reads an arm, a statement or statements in braces, which may take `room` levels.
#[cycle(statements)]
#[tactic(auto, unfolding(crate::specs::Parsers::arm))]
pub fn arm<'a>(
    alloc: Global,
    setting: Setting,
    kind: Kind,
    room: u8,
    tokens: &'a [Marked],
) -> ParsedStatements<'a>
    requires { room ≤ 64 }
    ensures gives { GivesStatements result (spec.arm (sight setting.entry) (spec.statement_by (sight setting.entry) kind room) tokens.now) }
    ensures low { IfOk result (λ x. x.0.levels ≤ room) }
{
    match next(tokens) {
        Some((token, rest)) => {
            if is_sign(Sign::LeftBrace, token.what) {
                block(alloc, setting, kind, room, rest)
            } else {
                statement(alloc, setting, kind, room, tokens)
            }
        }
        None => Err(Refusal::At(Fault::Syntax, tokens)),
    }
}

// Behind `else`.
#[cycle(statements)]
fn second_arm<'a>(
    alloc: Global,
    setting: Setting,
    kind: Kind,
    room: u8,
    line: u32,
    test: Tall<Test>,
    one: Tall<Stmts>,
    tokens: &'a [Marked],
) -> ParsedStatements<'a>
    requires small { room ≤ 64 }
    requires test { test.levels ≤ room }
    requires one { one.levels ≤ room }
    ensures gives { GivesStatements result (spec.second_arm (sight setting.entry) (spec.statement_by (sight setting.entry) kind room) line (tall_of choice_of test) (tall_of statements_of one) tokens.now) }
    ensures low { IfOk result (λ x. x.0.levels ≤ room + 1) }
{
    let (two, rest) = arm(alloc, setting, kind, room, tokens)?;
    Ok((chosen(alloc, line, test, one, two)?, rest))
}

// Behind the first arm of an `if`.
#[cycle(statements)]
fn else_arm<'a>(
    alloc: Global,
    setting: Setting,
    kind: Kind,
    room: u8,
    line: u32,
    test: Tall<Test>,
    one: Tall<Stmts>,
    tokens: &'a [Marked],
) -> ParsedStatements<'a>
    requires small { room ≤ 64 }
    requires test { test.levels ≤ room }
    requires one { one.levels ≤ room }
    ensures gives { GivesStatements result (spec.else_arm (sight setting.entry) (spec.statement_by (sight setting.entry) kind room) line (tall_of choice_of test) (tall_of statements_of one) tokens.now) }
    ensures low { IfOk result (λ x. x.0.levels ≤ room + 1) }
{
    match next(tokens) {
        Some((token, rest)) => {
            if is_else(token.what) {
                second_arm(alloc, setting, kind, room, line, test, one, rest)
            } else {
                Ok((chosen(alloc, line, test, one, nothing(alloc))?, tokens))
            }
        }
        None => Ok((chosen(alloc, line, test, one, nothing(alloc))?, tokens)),
    }
}

// Behind `if`.
#[cycle(statements)]
#[tactic(auto, unfolding(crate::specs::Parsers::choice))]
fn choice<'a>(
    alloc: Global,
    setting: Setting,
    kind: Kind,
    room: u8,
    line: u32,
    tokens: &'a [Marked],
) -> ParsedStatements<'a>
    requires { room ≤ 64 }
    ensures gives { GivesStatements result (spec.choice (sight setting.entry) room (spec.statement_by (sight setting.entry) kind room) line tokens.now) }
    ensures low { IfOk result (λ x. x.0.levels ≤ room + 1) }
{
    let (test, rest) = trial(alloc, setting, room, tokens)?;
    let (one, rest) = arm(alloc, setting, kind, room, rest)?;
    else_arm(alloc, setting, kind, room, line, test, one, rest)
}

// Behind `while`.
#[cycle(statements)]
#[tactic(auto, unfolding(crate::specs::Parsers::repetition))]
fn repetition<'a>(
    alloc: Global,
    setting: Setting,
    kind: Kind,
    room: u8,
    line: u32,
    tokens: &'a [Marked],
) -> ParsedStatements<'a>
    requires { room ≤ 64 }
    ensures gives { GivesStatements result (spec.repetition (sight setting.entry) room (spec.statement_by (sight setting.entry) kind room) line tokens.now) }
    ensures low { IfOk result (λ x. x.0.levels ≤ room + 1) }
{
    let (test, rest) = condition(alloc, setting, room, tokens)?;
    let (body, rest) = arm(alloc, setting, kind, room, rest)?;
    Ok((repeated(alloc, line, test, body)?, rest))
}

// The arm of a `for`, behind its parts.
#[cycle(statements)]
fn counted_arm<'a>(
    alloc: Global,
    setting: Setting,
    kind: Kind,
    room: u8,
    line: u32,
    parts: Parts,
    tokens: &'a [Marked],
) -> ParsedStatements<'a>
    requires small { room ≤ 64 }
    requires first { parts.first.levels ≤ room + 1 }
    requires test { parts.test.levels ≤ room }
    requires last { parts.last.levels ≤ room + 1 }
    ensures gives { GivesStatements result (spec.counted_arm (sight setting.entry) (spec.statement_by (sight setting.entry) kind room) line (tall_of statements_of parts.first) (tall_of expr_of parts.test) (tall_of statements_of parts.last) tokens.now) }
    ensures low { IfOk result (λ x. x.0.levels ≤ room + 1) }
{
    let (body, rest) = arm(alloc, setting, kind, room, tokens)?;
    Ok((counted(alloc, line, parts, body)?, rest))
}

// The parts of a `for`, and its arm.
#[cycle(statements)]
fn counted_parts<'a>(
    alloc: Global,
    setting: Setting,
    kind: Kind,
    room: u8,
    line: u32,
    tokens: &'a [Marked],
) -> ParsedStatements<'a>
    requires { room ≤ 64 }
    ensures gives { GivesStatements result (spec.counted_parts (sight setting.entry) room (spec.statement_by (sight setting.entry) kind room) line tokens.now) }
    ensures low { IfOk result (λ x. x.0.levels ≤ room + 1) }
{
    let (first, rest) = first(alloc, setting, room, tokens)?;
    let (test, rest) = middle(alloc, setting, room, rest)?;
    let (last, rest) = last(alloc, setting, room, rest)?;
    let parts = Parts { first, test, last };
    counted_arm(alloc, setting, kind, room, line, parts, rest)
}

// Behind `for`.
#[cycle(statements)]
#[tactic(auto, unfolding(crate::specs::Parsers::counting))]
fn counting<'a>(
    alloc: Global,
    setting: Setting,
    kind: Kind,
    room: u8,
    line: u32,
    tokens: &'a [Marked],
) -> ParsedStatements<'a>
    requires { room ≤ 64 }
    ensures gives { GivesStatements result (spec.counting (sight setting.entry) room (spec.statement_by (sight setting.entry) kind room) line tokens.now) }
    ensures low { IfOk result (λ x. x.0.levels ≤ room + 1) }
{
    let (_, rest) = sign(setting, Sign::LeftParenthesis, tokens)?;
    counted_parts(alloc, setting, kind, room, line, rest)
}

// Why a token begins no statement where there is no room for one.
fn too_deep(setting: Setting, token: Marked) -> Fault
    ensures { result ≡ spec.fault_of (sight setting.entry) token }
{
    if begins_simple(setting, token) {
        Fault::TooDeep
    } else {
        Fault::Syntax
    }
}

// A simple statement.
fn simple_in<'a>(
    alloc: Global,
    setting: Setting,
    kind: Kind,
    room: u8,
    token: Marked,
    tokens: &'a [Marked],
    rest: &'a [Marked],
) -> ParsedStatements<'a>
    requires small { room ≤ 64 }
    requires whole { tokens.now ≡ token ∷ rest.now }
    ensures gives { GivesStatements result (commit (spec.simple_in (sight setting.entry) kind room) refuse tokens.now) }
    ensures low { IfOk result (λ x. x.0.levels ≤ room) }
{
    if room == 0 {
        return Err(Refusal::At(too_deep(setting, token), tokens));
    }
    simple(alloc, setting, kind, room - 1, tokens)
}

/// Reads a statement, which may take `room` levels, its own among them.
#[cycle(statements)]
pub fn statement<'a>(
    alloc: Global,
    setting: Setting,
    kind: Kind,
    room: u8,
    tokens: &'a [Marked],
) -> ParsedStatements<'a>
    requires { room ≤ 64 }
    ensures gives { GivesStatements result (commit (spec.statement_by (sight setting.entry) kind room) refuse tokens.now) }
    ensures low { IfOk result (λ x. x.0.levels ≤ room) }
{
    let Some((token, rest)) = next(tokens) else {
        return Err(Refusal::At(Fault::Syntax, tokens));
    };
    match statement_opening(token.what) {
        Opening::Empty => Ok((nothing(alloc), rest)),
        Opening::If => {
            if room <= 1 {
                return Err(Refusal::At(Fault::TooDeep, tokens));
            }
            choice(alloc, setting, kind, room - 1, token.line, rest)
        }
        Opening::While => {
            if room <= 1 {
                return Err(Refusal::At(Fault::TooDeep, tokens));
            }
            repetition(alloc, setting, kind, room - 1, token.line, rest)
        }
        Opening::For => {
            if room == 0 {
                return Err(Refusal::At(Fault::TooDeep, tokens));
            }
            counting(alloc, setting, kind, room - 1, token.line, rest)
        }
        Opening::Simple => simple_in(alloc, setting, kind, room, token, tokens, rest),
    }
}
