//! Where the value of an assignment or a declaration comes from: an expression, or a call.

ghost use Rattle.std.specs.Prelude.{◌≡◌, ◌+◌, ◌≤◌, ◌∷◌, IfOk};
ghost use Rattle.parse_laws.specs.Parser.{commit, pure};
ghost use Rattle.c_expressions.specs.Gives.{sight};
ghost use Rattle.c_simple.specs.Gives.{GivesCall, GivesSource, levels_in, source_of};
ghost use Rattle.c_simple.specs.Parsers as spec;

use crate::token::is_operator;
use c_expressions::expression::expression;
use c_expressions::list::arguments;
use c_expressions::tall::Tall;
use c_expressions::token::{Marked, Setting, called as callee, is_sign};
use c_lexer::Sign;
use c_tree::{Expr, Exprs, Name};
use parse_laws::fault::{Fault, Refusal};
use parse_laws::token::next;
use sqlite_items::Items;
use std::alloc::{AllocError, Global};

/// A function, and the arguments that it is called with.
#[derive(Debug, Drop)]
pub struct Called {
    /// The function.
    pub function: Name,
    /// Its arguments.
    pub args: Exprs,
}

/// Where a value comes from.
#[derive(Debug, Drop)]
pub enum Source {
    /// An expression.
    Value(Tall<Expr>),
    /// A call of a function.
    Call(Tall<Called>),
}

/// A call, its levels and the tokens after it.
pub type ParsedCall<'a> = Result<(Tall<Called>, &'a [Marked]), Refusal<'a, Marked>>;

/// Where a value comes from, and the tokens after it.
pub type ParsedSource<'a> = Result<(Source, &'a [Marked]), Refusal<'a, Marked>>;

// An expression.
fn value<'a>(alloc: Global, setting: Setting, room: u8, tokens: &'a [Marked]) -> ParsedSource<'a>
    requires { room ≤ 64 }
    ensures gives { GivesSource result (spec.value (sight setting.entry) room tokens.now) }
    ensures low { IfOk result (λ x. levels_in x.0 ≤ room + 1) }
{
    let (value, rest) = expression(alloc, setting, room, tokens)?;
    Ok((Source::Value(value), rest))
}

/// Reads what stands behind the name of a function and `(`. Each argument may take `room` levels.
pub fn call_arguments<'a>(
    alloc: Global,
    setting: Setting,
    room: u8,
    name: &[u8],
    tokens: &'a [Marked],
) -> ParsedCall<'a>
    requires { room ≤ 64 }
    ensures gives { GivesCall result (spec.call_arguments (sight setting.entry) room name.now tokens.now) }
    ensures low { IfOk result (λ x. x.0.levels ≤ room) }
{
    let (args, rest) = arguments(alloc, setting, room, tokens)?;
    let levels = args.levels;
    let tree = Called {
        function: Items::from_slice(alloc, name)?,
        args: args.tree,
    };
    Ok((Tall { tree, levels }, rest))
}

fn source_call<'a>(
    alloc: Global,
    setting: Setting,
    room: u8,
    name: &[u8],
    tokens: &'a [Marked],
) -> ParsedSource<'a>
    requires { room ≤ 64 }
    ensures gives { GivesSource result (spec.source_call (sight setting.entry) room name.now tokens.now) }
    ensures low { IfOk result (λ x. levels_in x.0 ≤ room + 1) }
{
    let (call, rest) = call_arguments(alloc, setting, room, name, tokens)?;
    Ok((Source::Call(call), rest))
}

// A name alone.
fn name_value(alloc: Global, name: &[u8]) -> Result<Source, AllocError>
    ensures gives { IfOk result (λ x. source_of x ≡ spec.name_value name.now) }
    ensures low { IfOk result (λ x. levels_in x ≤ 1) }
{
    let tree = Expr::Name(Items::from_slice(alloc, name)?);
    Ok(Source::Value(Tall { tree, levels: 1 }))
}

// Behind a name that may be called, on the innermost level, where no `(` follows.
fn name_alone<'a>(
    alloc: Global,
    setting: Setting,
    name: &[u8],
    tokens: &'a [Marked],
) -> ParsedSource<'a>
    ensures gives { GivesSource result (commit (spec.too_deep_on (sight setting.entry)) (pure (spec.name_value name.now)) tokens.now) }
    ensures low { IfOk result (λ x. levels_in x.0 ≤ 1) }
{
    match next(tokens) {
        Some((token, _)) => {
            if is_sign(Sign::LeftBracket, token.what) || is_operator(token.what) {
                Err(Refusal::At(Fault::TooDeep, tokens))
            } else {
                Ok((name_value(alloc, name)?, tokens))
            }
        }
        None => Ok((name_value(alloc, name)?, tokens)),
    }
}

// Behind a name that may be called, where no `(` follows: a value that begins with that name, which is the
// first of the tokens `whole`, of which `tokens` are those behind it.
fn value_first<'a>(
    alloc: Global,
    setting: Setting,
    room: u8,
    whole: &'a [Marked],
    token: Marked,
    name: &[u8],
    tokens: &'a [Marked],
) -> ParsedSource<'a>
    requires room { room ≤ 64 }
    requires whole { whole.now ≡ token ∷ tokens.now }
    ensures gives { GivesSource result (spec.value_first (sight setting.entry) room token name.now tokens.now) }
    ensures low { IfOk result (λ x. levels_in x.0 ≤ room + 1) }
{
    if room == 0 {
        return name_alone(alloc, setting, name, tokens);
    }
    value(alloc, setting, room, whole)
}

// Behind a name that may be called.
#[tactic(auto, unfolding(crate::specs::Parsers::behind_callee))]
fn behind_callee<'a>(
    alloc: Global,
    setting: Setting,
    room: u8,
    whole: &'a [Marked],
    token: Marked,
    name: &[u8],
    tokens: &'a [Marked],
) -> ParsedSource<'a>
    requires room { room ≤ 64 }
    requires whole { whole.now ≡ token ∷ tokens.now }
    ensures gives { GivesSource result (spec.behind_callee (sight setting.entry) room token name.now tokens.now) }
    ensures low { IfOk result (λ x. levels_in x.0 ≤ room + 1) }
{
    match next(tokens) {
        Some((sign, rest)) => {
            if is_sign(Sign::LeftParenthesis, sign.what) {
                source_call(alloc, setting, room, name, rest)
            } else {
                value_first(alloc, setting, room, whole, token, name, tokens)
            }
        }
        None => value_first(alloc, setting, room, whole, token, name, tokens),
    }
}

/// Reads an expression that may take `room` levels, or a call whose arguments may.
///
/// Like an expression it may take one level more where it ends in `( intptr_t )`, and on the innermost level
/// where it is the name of a function alone, which could go on as a call.
#[tactic(auto, unfolding(crate::specs::Parsers::value_or_call))]
pub fn value_or_call<'a>(
    alloc: Global,
    setting: Setting,
    room: u8,
    tokens: &'a [Marked],
) -> ParsedSource<'a>
    requires { room ≤ 64 }
    ensures gives { GivesSource result (spec.value_or_call (sight setting.entry) room tokens.now) }
    ensures low { IfOk result (λ x. levels_in x.0 ≤ room + 1) }
{
    match next(tokens) {
        Some((token, rest)) => match callee(setting.text, token.what) {
            Some(name) => behind_callee(alloc, setting, room, tokens, token, name, rest),
            None => value(alloc, setting, room, tokens),
        },
        None => value(alloc, setting, room, tokens),
    }
}
