//! The parser of initial values. Each function reads what the function of its name in `specs/` does.

ghost use Rattle.std.specs.Prelude.{◌≡◌, ◌∷◌};
ghost use Rattle.c_lexer.specs.declared.token.Sign.TheVariants.{Comma};
ghost use Rattle.parse_laws.specs.Gives.{Gives};
ghost use Rattle.parse_laws.specs.Parser.{must};
ghost use Rattle.c_expressions.specs.Gives.{sight};
ghost use Rattle.c_expressions.specs.Parsers.{is};
ghost use Rattle.c_declarations.specs.Words.{int_holds};
ghost use Rattle.c_declarations.specs.Parsers as spec;

use crate::token::{Read, held, is_comma};
use c_expressions::expression::sign;
use c_expressions::token::{Marked, Setting, is_sign};
use c_lexer::Sign;
use c_tree::Values;
use parse_laws::fault::{Fault, Refusal};
use parse_laws::token::next;
use sqlite_items::Items;
use std::alloc::Global;

// Behind `-`.
#[tactic(auto, unfolding(crate::specs::Parsers::negative))]
fn negative<'a>(setting: Setting, tokens: &'a [Marked]) -> Read<'a, i32>
    ensures { Gives result (spec.negative (sight setting.entry) int_holds tokens.now) }
{
    match next(tokens) {
        Some((token, rest)) => match held(token.what) {
            Some(value) => Ok((-(value as i32), rest)),
            None => Err(Refusal::At(Fault::Syntax, tokens)),
        },
        None => Err(Refusal::At(Fault::Syntax, tokens)),
    }
}

/// Reads a value: a number of type `int`, and perhaps a `-` before it.
#[tactic(auto, unfolding(crate::specs::Parsers::value))]
pub fn value<'a>(setting: Setting, tokens: &'a [Marked]) -> Read<'a, i32>
    ensures { Gives result (spec.value (sight setting.entry) int_holds tokens.now) }
{
    match next(tokens) {
        Some((token, rest)) => {
            if is_sign(Sign::Minus, token.what) {
                negative(setting, rest)
            } else {
                match held(token.what) {
                    Some(value) => Ok((value as i32, rest)),
                    None => Err(Refusal::At(Fault::Syntax, tokens)),
                }
            }
        }
        None => Err(Refusal::At(Fault::Syntax, tokens)),
    }
}

// A comma and a value.
fn next_value<'a>(setting: Setting, tokens: &'a [Marked]) -> Read<'a, i32>
    ensures { Gives result (must (is (sight setting.entry) Comma) (spec.value (sight setting.entry) int_holds) tokens.now) }
{
    let (_, rest) = sign(setting, Sign::Comma, tokens)?;
    value(setting, rest)
}

// The values behind those read so far.
fn more_values<'a>(setting: Setting, all: Values, tokens: &'a [Marked]) -> Read<'a, Values>
    ensures { Gives result (spec.more (sight setting.entry) (spec.value (sight setting.entry) int_holds) spec.grown all tokens.now) }
{
    let mut all = all;
    let mut rest = tokens;
    'turns: while is_comma(setting, rest) {
        let (one, after) = next_value(setting, rest)?;
        all.push(one)?;
        rest = after;
    }
    Ok((all, rest))
}

/// Reads one value or more with commas between them.
#[tactic(auto, unfolding(crate::specs::Parsers::values))]
pub fn values<'a>(alloc: Global, setting: Setting, tokens: &'a [Marked]) -> Read<'a, Values>
    ensures { Gives result (spec.values (sight setting.entry) int_holds tokens.now) }
{
    let (first, rest) = value(setting, tokens)?;
    let mut all = Items::new(alloc);
    all.push(first)?;
    more_values(setting, all, rest)
}
