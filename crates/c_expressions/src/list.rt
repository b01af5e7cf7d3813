//! The parser of lists of expressions, and of the arguments of a call. Each function reads what the function
//! of its name in `specs/` does.

ghost use Rattle.std.specs.Prelude.{◌≡◌, ◌+◌, ◌≤◌, IfOk};
ghost use Rattle.c_tree.specs.Expressions.{expr_of};
ghost use Rattle.parse_laws.specs.Parser.{commit, refuse};
ghost use Rattle.c_lexer.specs.declared.token.Sign.TheVariants.{Comma};
ghost use Rattle.c_expressions.specs.Gives.{GivesArguments, GivesList, list_of, sight, tall_of};
ghost use Rattle.c_expressions.specs.Parsers as spec;

use crate::expression::{close, expression};
use crate::tall::Tall;
use crate::token::{Marked, Setting, is_sign};
use c_lexer::Sign;
use c_tree::{Expr, Exprs};
use parse_laws::fault::{Fault, Refusal};
use parse_laws::token::next;
use sqlite_items::Items;
use std::alloc::{AllocError, Global};

/// Expressions in their order, the levels of the deepest, and the tokens after them.
pub type ParsedList<'a> = Result<(Tall<Exprs>, &'a [Marked]), Refusal<'a, Marked>>;

fn one_expression(alloc: Global, first: Tall<Expr>) -> Result<Tall<Exprs>, AllocError>
    ensures { IfOk result (λ all. tall_of list_of all ≡ spec.one_expression (tall_of expr_of first)) }
{
    let levels = first.levels;
    let mut tree = Items::new(alloc);
    tree.push(first.tree)?;
    Ok(Tall { tree, levels })
}

#[tactic(auto, using(crate::proofs::Lists::list_grows))]
fn with_expression(all: Tall<Exprs>, more: Tall<Expr>) -> Result<Tall<Exprs>, AllocError>
    ensures { IfOk result (λ x. tall_of list_of x ≡ spec.with_expression (tall_of list_of all) (tall_of expr_of more)) }
{
    let levels = all.levels.max(more.levels);
    let mut tree = all.tree;
    tree.push(more.tree)?;
    Ok(Tall { tree, levels })
}

fn is_comma(setting: Setting, tokens: &[Marked]) -> bool
    ensures { result ≡ spec.comes (sight setting.entry) Comma tokens.now }
{
    match next(tokens) {
        Some((token, _)) => is_sign(Sign::Comma, token.what),
        None => false,
    }
}

// One more expression, behind a comma.
fn added<'a>(
    alloc: Global,
    setting: Setting,
    room: u8,
    all: Tall<Exprs>,
    tokens: &'a [Marked],
) -> ParsedList<'a>
    requires room { room ≤ 64 }
    ensures { GivesList result (spec.added (sight setting.entry) room (tall_of list_of all) tokens.now) }
{
    let (more, rest) = expression(alloc, setting, room, tokens)?;
    Ok((with_expression(all, more)?, rest))
}

// A comma, and one more expression.
fn turn<'a>(
    alloc: Global,
    setting: Setting,
    room: u8,
    all: Tall<Exprs>,
    tokens: &'a [Marked],
) -> ParsedList<'a>
    requires room { room ≤ 64 }
    ensures { GivesList result (commit (spec.comma_by (sight setting.entry) room (tall_of list_of all)) refuse tokens.now) }
{
    match next(tokens) {
        Some((token, rest)) => {
            if !is_sign(Sign::Comma, token.what) {
                Err(Refusal::At(Fault::Syntax, tokens))
            } else if all.levels > room {
                Err(Refusal::At(Fault::TooDeep, tokens))
            } else {
                added(alloc, setting, room, all, rest)
            }
        }
        None => Err(Refusal::At(Fault::Syntax, tokens)),
    }
}

// The expressions behind those read so far.
fn more_expressions<'a>(
    alloc: Global,
    setting: Setting,
    room: u8,
    all: Tall<Exprs>,
    tokens: &'a [Marked],
) -> ParsedList<'a>
    requires room { room ≤ 64 }
    ensures { GivesList result (spec.more_expressions (sight setting.entry) room (tall_of list_of all) tokens.now) }
{
    let mut all = all;
    let mut rest = tokens;
    'turns: while is_comma(setting, rest) {
        let (more, after) = turn(alloc, setting, room, all, rest)?;
        all = more;
        rest = after;
    }
    Ok((all, rest))
}

/// Reads one expression or more with commas between them, each of which may take `room` levels. The last may
/// take one more where it ends in `( intptr_t )`.
#[tactic(auto, unfolding(crate::specs::Parsers::expressions))]
pub fn expressions<'a>(
    alloc: Global,
    setting: Setting,
    room: u8,
    tokens: &'a [Marked],
) -> ParsedList<'a>
    requires { room ≤ 64 }
    ensures { GivesList result (spec.expressions (sight setting.entry) room tokens.now) }
{
    let (first, rest) = expression(alloc, setting, room, tokens)?;
    let all = one_expression(alloc, first)?;
    more_expressions(alloc, setting, room, all, rest)
}

// Arguments, and the `)` behind them.
fn some_arguments<'a>(
    alloc: Global,
    setting: Setting,
    room: u8,
    tokens: &'a [Marked],
) -> ParsedList<'a>
    requires { room ≤ 64 }
    ensures gives { GivesArguments result (spec.some_arguments (sight setting.entry) room tokens.now) }
    ensures low { IfOk result (λ x. x.0.levels ≤ room) }
{
    let (all, rest) = expressions(alloc, setting, room, tokens)?;
    let (_, rest) = close(setting, Sign::RightParenthesis, room, all.levels, rest)?;
    Ok((all, rest))
}

/// Reads what stands behind the `(` of a call: the arguments, each of which may take `room` levels, and `)`.
#[tactic(auto, unfolding(crate::specs::Parsers::arguments))]
pub fn arguments<'a>(
    alloc: Global,
    setting: Setting,
    room: u8,
    tokens: &'a [Marked],
) -> ParsedList<'a>
    requires { room ≤ 64 }
    ensures gives { GivesArguments result (spec.arguments (sight setting.entry) room tokens.now) }
    ensures low { IfOk result (λ x. x.0.levels ≤ room) }
{
    match next(tokens) {
        Some((token, rest)) => {
            if is_sign(Sign::RightParenthesis, token.what) {
                Ok((
                    Tall {
                        tree: Items::new(alloc),
                        levels: 0,
                    },
                    rest,
                ))
            } else {
                some_arguments(alloc, setting, room, tokens)
            }
        }
        None => some_arguments(alloc, setting, room, tokens),
    }
}
