//! The parser of statements that hold no others.

ghost use Rattle.std.specs.Prelude.{◌≡◌, ◌+◌, ◌≤◌, ◌∷◌, IfOk};
ghost use Rattle.parse_laws.specs.Parser.{moved, refuse};
ghost use Rattle.c_expressions.specs.Gives.{sight, tall_of};
ghost use Rattle.c_simple.specs.Gives.{GivesStatements, statements_of};
ghost use Rattle.c_simple.specs.Parsers as spec;

use crate::assignments::{ParsedStatements, assigned, count_first, stepped};
use crate::declarations::declarators;
use crate::library::library;
use crate::results::return_by;
use crate::token::{counter, routine_of};
use crate::trees::call_statement;
use crate::values::call_arguments;
use c_expressions::expression::close;
use c_expressions::part::place_behind;
use c_expressions::tall::Tall;
use c_expressions::token::{Marked, Setting, What, called as callee, is_sign, name};
use c_grammar::FixedWord;
use c_lexer::Sign;
use c_tree::{Kind, Stmts};
use parse_laws::fault::{Fault, Refusal};
use parse_laws::token::next;
use std::alloc::Global;

// The sign behind a statement. Where the statement doesn't fit, it is too deep.
fn ended<'a>(
    setting: Setting,
    closer: Sign,
    room: u8,
    found: Tall<Stmts>,
    tokens: &'a [Marked],
) -> ParsedStatements<'a>
    requires { room ≤ 64 }
    ensures gives { GivesStatements result (spec.ended (sight setting.entry) closer room (tall_of statements_of found) tokens.now) }
    ensures low { IfOk result (λ x. x.0.levels ≤ room + 1) }
{
    let (_, rest) = close(setting, closer, room + 1, found.levels, tokens)?;
    Ok((found, rest))
}

// Behind the name of a function of the program and `(`.
fn call<'a>(
    alloc: Global,
    setting: Setting,
    room: u8,
    line: u32,
    name: &[u8],
    tokens: &'a [Marked],
) -> ParsedStatements<'a>
    requires { room ≤ 64 }
    ensures { GivesStatements result (spec.call_behind_name (sight setting.entry) room line name.now tokens.now) }
{
    let (call, rest) = call_arguments(alloc, setting, room, name, tokens)?;
    Ok((call_statement(alloc, line, call)?, rest))
}

// Behind a name: an assignment, or a count.
fn changed<'a>(
    alloc: Global,
    setting: Setting,
    room: u8,
    line: u32,
    name: &[u8],
    tokens: &'a [Marked],
) -> ParsedStatements<'a>
    requires { room ≤ 64 }
    ensures { GivesStatements result (spec.change_behind_name (sight setting.entry) room line name.now tokens.now) }
{
    let (target, rest) = place_behind(alloc, setting, room, name, tokens)?;
    assigned(alloc, setting, room, line, target, rest)
}

// The same in a step.
#[tactic(auto, unfolding(crate::specs::Parsers::step_named))]
fn step_named<'a>(
    alloc: Global,
    setting: Setting,
    room: u8,
    token: Marked,
    name: &[u8],
    tokens: &'a [Marked],
) -> ParsedStatements<'a>
    requires { room ≤ 64 }
    ensures { GivesStatements result (spec.step_named (sight setting.entry) room token name.now tokens.now) }
{
    let (target, rest) = place_behind(alloc, setting, room, name, tokens)?;
    stepped(alloc, setting, room, token.line, target, rest)
}

// Behind a name and `(`, where `tokens` begin with the `(`.
fn parenthesis<'a>(
    alloc: Global,
    setting: Setting,
    room: u8,
    token: Marked,
    name: &[u8],
    sign: Marked,
    tokens: &'a [Marked],
    rest: &'a [Marked],
) -> ParsedStatements<'a>
    requires room { room ≤ 64 }
    requires tokens { tokens.now ≡ sign ∷ rest.now }
    ensures { GivesStatements result (moved (spec.called_by (sight setting.entry) room token) (spec.change_behind_name (sight setting.entry) room token.line name.now) sign rest.now) }
{
    match callee(setting.text, token.what) {
        Some(function) => call(alloc, setting, room, token.line, function, rest),
        None => match routine_of(setting.null, token.what) {
            Some(routine) => library(alloc, setting, room, token.line, routine, rest),
            None => changed(alloc, setting, room, token.line, name, tokens),
        },
    }
}

// Behind a name.
#[tactic(auto, unfolding(crate::specs::Parsers::simple_named))]
fn simple_named<'a>(
    alloc: Global,
    setting: Setting,
    room: u8,
    token: Marked,
    name: &[u8],
    tokens: &'a [Marked],
) -> ParsedStatements<'a>
    requires { room ≤ 64 }
    ensures { GivesStatements result (spec.simple_named (sight setting.entry) room token name.now tokens.now) }
{
    match next(tokens) {
        Some((sign, rest)) => {
            if is_sign(Sign::LeftParenthesis, sign.what) {
                parenthesis(alloc, setting, room, token, name, sign, tokens, rest)
            } else {
                changed(alloc, setting, room, token.line, name, tokens)
            }
        }
        None => changed(alloc, setting, room, token.line, name, tokens),
    }
}

// A token that is no name, the first of the tokens `whole`: `++` or `--`.
fn counted_first<'a>(
    alloc: Global,
    setting: Setting,
    room: u8,
    whole: &'a [Marked],
    token: Marked,
    tokens: &'a [Marked],
) -> ParsedStatements<'a>
    requires room { room ≤ 64 }
    requires whole { whole.now ≡ token ∷ tokens.now }
    ensures { GivesStatements result (moved (spec.counted_by (sight setting.entry) room token) refuse token tokens.now) }
{
    match counter(token.what) {
        Some(op) => count_first(alloc, setting, room, token.line, op, tokens),
        None => Err(Refusal::At(Fault::Syntax, whole)),
    }
}

// What begins with a token, the first of the tokens `whole`, that is no word of its own.
fn other_begun<'a>(
    alloc: Global,
    setting: Setting,
    room: u8,
    whole: &'a [Marked],
    token: Marked,
    tokens: &'a [Marked],
) -> ParsedStatements<'a>
    requires room { room ≤ 64 }
    requires whole { whole.now ≡ token ∷ tokens.now }
    ensures { GivesStatements result (moved (spec.other_begun (sight setting.entry) room token) refuse token tokens.now) }
{
    match name(setting.text, token.what) {
        Some(name) => simple_named(alloc, setting, room, token, name, tokens),
        None => counted_first(alloc, setting, room, whole, token, tokens),
    }
}

// A simple statement without its `;`.
fn simple_open<'a>(
    alloc: Global,
    setting: Setting,
    kind: Kind,
    room: u8,
    tokens: &'a [Marked],
) -> ParsedStatements<'a>
    requires { room ≤ 64 }
    ensures { GivesStatements result (spec.simple_open (sight setting.entry) kind room tokens.now) }
{
    match next(tokens) {
        Some((token, rest)) => match token.what {
            What::Fixed(FixedWord::Int) => declarators(alloc, setting, room, rest),
            What::Fixed(FixedWord::Return) => {
                return_by(alloc, setting, kind, room, tokens, token, rest)
            }
            _ => other_begun(alloc, setting, room, tokens, token, rest),
        },
        None => Err(Refusal::At(Fault::Syntax, tokens)),
    }
}

// A step without the sign behind it.
fn step_open<'a>(
    alloc: Global,
    setting: Setting,
    room: u8,
    tokens: &'a [Marked],
) -> ParsedStatements<'a>
    requires { room ≤ 64 }
    ensures { GivesStatements result (spec.step_open (sight setting.entry) room tokens.now) }
{
    match next(tokens) {
        Some((token, rest)) => match name(setting.text, token.what) {
            Some(name) => step_named(alloc, setting, room, token, name, rest),
            None => counted_first(alloc, setting, room, tokens, token, rest),
        },
        None => Err(Refusal::At(Fault::Syntax, tokens)),
    }
}

/// Reads a simple statement of a function of this kind, and its `;`. So many levels may stand below its own
/// as `room` says.
pub fn simple<'a>(
    alloc: Global,
    setting: Setting,
    kind: Kind,
    room: u8,
    tokens: &'a [Marked],
) -> ParsedStatements<'a>
    requires { room ≤ 64 }
    ensures gives { GivesStatements result (spec.simple (sight setting.entry) kind room tokens.now) }
    ensures low { IfOk result (λ x. x.0.levels ≤ room + 1) }
{
    let (found, rest) = simple_open(alloc, setting, kind, room, tokens)?;
    ended(setting, Sign::Semicolon, room, found, rest)
}

/// Reads a step of a `for`, and the sign behind it. So many levels may stand below its own as `room` says.
pub fn step<'a>(
    alloc: Global,
    setting: Setting,
    closer: Sign,
    room: u8,
    tokens: &'a [Marked],
) -> ParsedStatements<'a>
    requires { room ≤ 64 }
    ensures gives { GivesStatements result (spec.step (sight setting.entry) closer room tokens.now) }
    ensures low { IfOk result (λ x. x.0.levels ≤ room + 1) }
{
    let (found, rest) = step_open(alloc, setting, room, tokens)?;
    ended(setting, closer, room, found, rest)
}

/// Whether a token begins a simple statement, in any room.
pub fn begins_simple(setting: Setting, token: Marked) -> bool
    ensures { result ≡ spec.begins_simple (sight setting.entry) token }
{
    match token.what {
        What::Fixed(FixedWord::Int | FixedWord::Return) => true,
        what => name(setting.text, what).is_some() || counter(what).is_some(),
    }
}

/// Whether a token begins a step, in any room.
pub fn begins_step(setting: Setting, token: Marked) -> bool
    ensures { result ≡ spec.begins_step (sight setting.entry) token }
{
    name(setting.text, token.what).is_some() || counter(token.what).is_some()
}
