//! The parser of what follows `return`.

ghost use Rattle.std.specs.Prelude.{◌≡◌, ◌≤◌, ◌∷◌};
ghost use Rattle.parse_laws.specs.Gives.{Gives};
ghost use Rattle.parse_laws.specs.Parser.{expect, moved, refuse};
ghost use Rattle.c_expressions.specs.Gives.{sight};
ghost use Rattle.c_expressions.specs.Parsers.{seen};
ghost use Rattle.c_simple.specs.Gives.{GivesStatements};
ghost use Rattle.c_simple.specs.Words.{is_no_value};
ghost use Rattle.c_simple.specs.Parsers as spec;

use crate::assignments::ParsedStatements;
use crate::token::is_no_value;
use crate::trees::returned;
use c_expressions::expression::{Passed, expression};
use c_expressions::token::{Marked, Setting};
use c_tree::Kind;
use parse_laws::fault::{Fault, Refusal};
use parse_laws::token::next;
use std::alloc::Global;

fn value_returned<'a>(
    alloc: Global,
    setting: Setting,
    room: u8,
    line: u32,
    tokens: &'a [Marked],
) -> ParsedStatements<'a>
    requires { room ≤ 64 }
    ensures { GivesStatements result (spec.value_returned (sight setting.entry) room line tokens.now) }
{
    let (value, rest) = expression(alloc, setting, room, tokens)?;
    let below = value.levels;
    Ok((returned(alloc, line, Some(value.tree), below)?, rest))
}

// `NULL`, or the number 0.
fn no_value<'a>(setting: Setting, tokens: &'a [Marked]) -> Passed<'a>
    ensures { Gives result (expect (spec.is_no_value_at (sight setting.entry)) tokens.now) }
{
    match next(tokens) {
        Some((token, rest)) => {
            if is_no_value(token.what) {
                Ok((token, rest))
            } else {
                Err(Refusal::At(Fault::Syntax, tokens))
            }
        }
        None => Err(Refusal::At(Fault::Syntax, tokens)),
    }
}

fn nothing_returned<'a>(
    alloc: Global,
    setting: Setting,
    line: u32,
    tokens: &'a [Marked],
) -> ParsedStatements<'a>
    ensures { GivesStatements result (spec.nothing_returned (sight setting.entry) line tokens.now) }
{
    let (_, rest) = no_value(setting, tokens)?;
    Ok((returned(alloc, line, None, 0)?, rest))
}

/// Reads what follows `return`, the first of the tokens `whole`, by the kind of the function.
pub fn return_by<'a>(
    alloc: Global,
    setting: Setting,
    kind: Kind,
    room: u8,
    whole: &'a [Marked],
    token: Marked,
    tokens: &'a [Marked],
) -> ParsedStatements<'a>
    requires room { room ≤ 64 }
    requires whole { whole.now ≡ token ∷ tokens.now }
    ensures { GivesStatements result (moved (spec.return_by (sight setting.entry) room token.line kind) refuse token tokens.now) }
{
    match kind {
        Kind::Void => Ok((returned(alloc, token.line, None, 0)?, tokens)),
        Kind::Thread => nothing_returned(alloc, setting, token.line, tokens),
        Kind::Main | Kind::Int => {
            if room == 0 {
                Err(Refusal::At(Fault::TooDeep, whole))
            } else {
                value_returned(alloc, setting, room, token.line, tokens)
            }
        }
    }
}
