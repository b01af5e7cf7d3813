//! The parser of the monitors that a wait takes tokens of.

ghost use Rattle.std.specs.Prelude.{◌≡◌, []};
ghost use Rattle.parse_laws.specs.Gives.{Gives};
ghost use Rattle.parse_laws.specs.Parser.{commit, expect, loop, refuse};
ghost use Rattle.c_expressions.specs.Gives.{sight};
ghost use Rattle.c_simple.specs.Parsers as spec;

use crate::token::{is_one, number};
use c_expressions::expression::{Passed, sign};
use c_expressions::token::{Marked, Setting};
use c_lexer::Sign;
use c_tree::Numbers;
use parse_laws::fault::{Fault, Refusal};
use parse_laws::token::next;
use sqlite_items::Items;
use std::alloc::Global;

/// Numbers, and the tokens after them.
pub type ReadNumbers<'a> = Result<(Numbers, &'a [Marked]), Refusal<'a, Marked>>;

// One number more, and the comma behind it.
fn one_more<'a>(setting: Setting, all: Numbers, tokens: &'a [Marked]) -> ReadNumbers<'a>
    ensures { Gives result (commit (spec.take_by (sight setting.entry) all) refuse tokens.now) }
{
    let Some((token, rest)) = next(tokens) else {
        return Err(Refusal::At(Fault::Syntax, tokens));
    };
    let Some(number) = number(token.what) else {
        return Err(Refusal::At(Fault::Syntax, tokens));
    };
    let (_, rest) = sign(setting, Sign::Comma, rest)?;
    let mut all = all;
    all.push(number)?;
    Ok((all, rest))
}

#[tactic(auto, unfolding(crate::specs::Parsers::first_take))]
fn first_take<'a>(alloc: Global, setting: Setting, tokens: &'a [Marked]) -> ReadNumbers<'a>
    ensures { Gives result (spec.first_take (sight setting.entry) tokens.now) }
{
    one_more(setting, Items::new(alloc), tokens)
}

fn number_comes(setting: Setting, tokens: &[Marked]) -> bool
    ensures { result ≡ spec.number_comes (sight setting.entry) tokens.now }
{
    match next(tokens) {
        Some((token, _)) => number(token.what).is_some(),
        None => false,
    }
}

// The numbers behind those read so far.
fn more_takes<'a>(setting: Setting, all: Numbers, tokens: &'a [Marked]) -> ReadNumbers<'a>
    ensures { Gives result (spec.more_takes (sight setting.entry) all tokens.now) }
{
    let mut all = all;
    let mut rest = tokens;
    'turns: while number_comes(setting, rest) {
        let (more, after) = one_more(setting, all, rest)?;
        all = more;
        rest = after;
    }
    Ok((all, rest))
}

fn one<'a>(setting: Setting, tokens: &'a [Marked]) -> Passed<'a>
    ensures { Gives result (expect (spec.is_one_at (sight setting.entry)) tokens.now) }
{
    match next(tokens) {
        Some((token, rest)) => {
            if is_one(token.what) {
                Ok((token, rest))
            } else {
                Err(Refusal::At(Fault::Syntax, tokens))
            }
        }
        None => Err(Refusal::At(Fault::Syntax, tokens)),
    }
}

// `- 1 )` behind the numbers.
#[tactic(auto, unfolding(crate::specs::Parsers::takes_end))]
fn takes_end<'a>(setting: Setting, all: Numbers, tokens: &'a [Marked]) -> ReadNumbers<'a>
    ensures { Gives result (spec.takes_end (sight setting.entry) all tokens.now) }
{
    let (_, rest) = sign(setting, Sign::Minus, tokens)?;
    let (_, rest) = one(setting, rest)?;
    let (_, rest) = sign(setting, Sign::RightParenthesis, rest)?;
    Ok((all, rest))
}

/// Reads the numbers of the monitors, each with a comma behind it, at least one, and `- 1 )`.
#[tactic(auto, unfolding(crate::specs::Parsers::takes))]
pub fn takes<'a>(alloc: Global, setting: Setting, tokens: &'a [Marked]) -> ReadNumbers<'a>
    ensures { Gives result (spec.takes (sight setting.entry) tokens.now) }
{
    let (all, rest) = first_take(alloc, setting, tokens)?;
    let (all, rest) = more_takes(setting, all, rest)?;
    takes_end(setting, all, rest)
}
