//! The parser of what `while` and `for` have in their parentheses. Each function reads what the function of
//! its name in `specs/` does.

ghost use Rattle.std.specs.Prelude.{◌≡◌, ◌+◌, ◌≤◌, IfOk};
ghost use Rattle.c_lexer.specs.declared.token.Sign.TheVariants.{Assign};
ghost use Rattle.c_tree.specs.Expressions.{expr_of};
ghost use Rattle.parse_laws.specs.Parser.{must};
ghost use Rattle.c_expressions.specs.Gives.{GivesExpression, sight};
ghost use Rattle.c_expressions.specs.Parsers as expressions;
ghost use Rattle.c_simple.specs.Gives.{GivesStatements};
ghost use Rattle.c_statements.specs.Parsers as spec;

use crate::tree::{initialised, nothing};
use crate::word::{Start, first_start};
use c_expressions::expression::{Parsed, close, expression, sign};
use c_expressions::tall::Tall;
use c_expressions::token::{Marked, Setting, is_sign, name};
use c_lexer::Sign;
use c_simple::assignments::ParsedStatements;
use c_simple::simple::step;
use c_tree::Expr;
use parse_laws::fault::{Fault, Refusal};
use parse_laws::token::next;
use std::alloc::Global;

// An expression, and the `)` behind it.
fn tested<'a>(alloc: Global, setting: Setting, room: u8, tokens: &'a [Marked]) -> Parsed<'a>
    requires { room ≤ 64 }
    ensures gives { GivesExpression result (spec.tested (sight setting.entry) room tokens.now) }
    ensures low { IfOk result (λ x. x.0.levels ≤ room) }
{
    let (test, rest) = expression(alloc, setting, room, tokens)?;
    let (_, rest) = close(setting, Sign::RightParenthesis, room, test.levels, rest)?;
    Ok((test, rest))
}

/// Reads an expression in parentheses, which may take `room` levels.
#[tactic(auto, unfolding(crate::specs::Parsers::condition))]
pub fn condition<'a>(alloc: Global, setting: Setting, room: u8, tokens: &'a [Marked]) -> Parsed<'a>
    requires { room ≤ 64 }
    ensures gives { GivesExpression result (spec.condition (sight setting.entry) room tokens.now) }
    ensures low { IfOk result (λ x. x.0.levels ≤ room) }
{
    let (_, rest) = sign(setting, Sign::LeftParenthesis, tokens)?;
    tested(alloc, setting, room, rest)
}

// Behind `int`, a name and `=`.
fn initial_value<'a>(
    alloc: Global,
    setting: Setting,
    room: u8,
    line: u32,
    name: &[u8],
    tokens: &'a [Marked],
) -> ParsedStatements<'a>
    requires { room ≤ 64 }
    ensures gives { GivesStatements result (spec.initial_value (sight setting.entry) room line name.now tokens.now) }
    ensures low { IfOk result (λ x. x.0.levels ≤ room + 1) }
{
    let (value, rest) = expression(alloc, setting, room, tokens)?;
    let (_, rest) = close(setting, Sign::Semicolon, room, value.levels, rest)?;
    Ok((initialised(alloc, line, name, value)?, rest))
}

// Behind `int` and a name.
fn assigned<'a>(
    alloc: Global,
    setting: Setting,
    room: u8,
    line: u32,
    name: &[u8],
    tokens: &'a [Marked],
) -> ParsedStatements<'a>
    requires { room ≤ 64 }
    ensures gives { GivesStatements result (must (expressions.is (sight setting.entry) Assign) (spec.initial_value (sight setting.entry) room line name.now) tokens.now) }
    ensures low { IfOk result (λ x. x.0.levels ≤ room + 1) }
{
    let (_, rest) = sign(setting, Sign::Assign, tokens)?;
    initial_value(alloc, setting, room, line, name, rest)
}

// Behind `int`.
#[tactic(auto, unfolding(crate::specs::Parsers::declared))]
fn declared<'a>(
    alloc: Global,
    setting: Setting,
    room: u8,
    tokens: &'a [Marked],
) -> ParsedStatements<'a>
    requires { room ≤ 64 }
    ensures gives { GivesStatements result (spec.declared (sight setting.entry) room tokens.now) }
    ensures low { IfOk result (λ x. x.0.levels ≤ room + 1) }
{
    match next(tokens) {
        Some((token, rest)) => match name(setting.text, token.what) {
            Some(name) => assigned(alloc, setting, room, token.line, name, rest),
            None => Err(Refusal::At(Fault::Syntax, tokens)),
        },
        None => Err(Refusal::At(Fault::Syntax, tokens)),
    }
}

/// Reads the first part of a `for`, if there is one, and the `;` behind it. `room` levels may stand below the `for`.
#[tactic(auto, unfolding(crate::specs::Parsers::first))]
pub fn first<'a>(
    alloc: Global,
    setting: Setting,
    room: u8,
    tokens: &'a [Marked],
) -> ParsedStatements<'a>
    requires { room ≤ 64 }
    ensures gives { GivesStatements result (spec.first (sight setting.entry) room tokens.now) }
    ensures low { IfOk result (λ x. x.0.levels ≤ room + 1) }
{
    match next(tokens) {
        Some((token, rest)) => match first_start(token.what) {
            Start::Nothing => Ok((nothing(alloc), rest)),
            Start::Int if room == 0 => Err(Refusal::At(Fault::TooDeep, tokens)),
            Start::Int => declared(alloc, setting, room, rest),
            Start::Step => step(alloc, setting, Sign::Semicolon, room, tokens),
        },
        None => Err(Refusal::At(Fault::Syntax, tokens)),
    }
}

// What a `for` tests, and `;`.
fn given_test<'a>(alloc: Global, setting: Setting, room: u8, tokens: &'a [Marked]) -> Parsed<'a>
    requires { room ≤ 64 }
    ensures gives { GivesExpression result (spec.given_test (sight setting.entry) room tokens.now) }
    ensures low { IfOk result (λ x. x.0.levels ≤ room) }
{
    let (test, rest) = expression(alloc, setting, room, tokens)?;
    let (_, rest) = close(setting, Sign::Semicolon, room, test.levels, rest)?;
    Ok((test, rest))
}

/// Reads what a `for` tests, and the `;` behind it. The test may take `room` levels; where the text has none it is
/// the number 1, on no level.
#[tactic(auto, unfolding(crate::specs::Parsers::middle))]
pub fn middle<'a>(alloc: Global, setting: Setting, room: u8, tokens: &'a [Marked]) -> Parsed<'a>
    requires { room ≤ 64 }
    ensures gives { GivesExpression result (spec.middle (sight setting.entry) room tokens.now) }
    ensures low { IfOk result (λ x. x.0.levels ≤ room) }
{
    match next(tokens) {
        Some((token, rest)) => {
            if is_sign(Sign::Semicolon, token.what) {
                Ok((
                    Tall {
                        tree: Expr::Number(1),
                        levels: 0,
                    },
                    rest,
                ))
            } else {
                given_test(alloc, setting, room, tokens)
            }
        }
        None => given_test(alloc, setting, room, tokens),
    }
}

/// Reads the step of a `for`, if there is one, and the `)` behind it. `room` levels may stand below the `for`.
#[tactic(auto, unfolding(crate::specs::Parsers::last))]
pub fn last<'a>(
    alloc: Global,
    setting: Setting,
    room: u8,
    tokens: &'a [Marked],
) -> ParsedStatements<'a>
    requires { room ≤ 64 }
    ensures gives { GivesStatements result (spec.last (sight setting.entry) room tokens.now) }
    ensures low { IfOk result (λ x. x.0.levels ≤ room + 1) }
{
    match next(tokens) {
        Some((token, rest)) => {
            if is_sign(Sign::RightParenthesis, token.what) {
                Ok((nothing(alloc), rest))
            } else {
                step(alloc, setting, Sign::RightParenthesis, room, tokens)
            }
        }
        None => Err(Refusal::At(Fault::Syntax, tokens)),
    }
}
