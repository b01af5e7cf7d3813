//! The parser of places, calls and the argument of a new thread. Each function reads what the function of
//! its name in `specs/` does.

ghost use Rattle.std.specs.Prelude.{◌≡◌, ◌+◌, ◌≤◌, IfOk};
ghost use Rattle.c_tree.specs.Expressions.{expr_of, exprs_of, place_of};
ghost use Rattle.parse_laws.specs.Parser.{commit, refuse};
ghost use Rattle.c_expressions.specs.Gives.{GivesExpression, GivesPlace, sight, tall_of};
ghost use Rattle.c_expressions.specs.Parsers as spec;

use crate::expression::{
    Parsed, close, closed, expression, index, int_cast, operand, pointer_first, sign,
};
use crate::tall::Tall;
use crate::token::{Inner, Marked, Setting, behind_open, is_sign, name};
use c_lexer::Sign;
use c_tree::{Expr, Place};
use parse_laws::fault::{Fault, Refusal};
use parse_laws::token::next;
use sqlite_items::Items;
use std::alloc::{AllocError, Global};

/// A place, its levels and the tokens after it.
pub type ParsedPlace<'a> = Result<(Tall<Place>, &'a [Marked]), Refusal<'a, Marked>>;

fn scalar(alloc: Global, name: &[u8]) -> Result<Tall<Place>, AllocError>
    ensures { IfOk result (λ x. tall_of place_of x ≡ spec.scalar name.now) }
{
    Ok(Tall {
        tree: Place {
            name: Items::from_slice(alloc, name)?,
            index: None,
        },
        levels: 0,
    })
}

fn member(alloc: Global, name: &[u8], index: Tall<Expr>) -> Result<Tall<Place>, AllocError>
    ensures { IfOk result (λ x. tall_of place_of x ≡ spec.member name.now (tall_of expr_of index)) }
{
    let levels = index.levels;
    Ok(Tall {
        tree: Place {
            name: Items::from_slice(alloc, name)?,
            index: Some(index.tree),
        },
        levels,
    })
}

// Behind a name and `[`.
fn indexed<'a>(
    alloc: Global,
    setting: Setting,
    room: u8,
    name: &[u8],
    tokens: &'a [Marked],
) -> ParsedPlace<'a>
    requires room { room ≤ 64 }
    requires some { 1 ≤ room }
    ensures gives { GivesPlace result (spec.indexed (sight setting.entry) room (spec.lower_in (sight setting.entry) room) (spec.member name.now) tokens.now) }
    ensures low { IfOk result (λ x. x.0.levels ≤ room) }
{
    let (inside, rest) = index(alloc, setting, room, tokens)?;
    Ok((member(alloc, name, inside)?, rest))
}

/// Reads what follows the name of a place: an index, which may take `room` levels, or nothing.
pub fn place_behind<'a>(
    alloc: Global,
    setting: Setting,
    room: u8,
    name: &[u8],
    tokens: &'a [Marked],
) -> ParsedPlace<'a>
    requires { room ≤ 64 }
    ensures gives { GivesPlace result (spec.place_behind (sight setting.entry) room name.now tokens.now) }
    ensures low { IfOk result (λ x. x.0.levels ≤ room) }
{
    if let Some((token, rest)) = next(tokens) {
        if is_sign(Sign::LeftBracket, token.what) {
            if room == 0 {
                return Err(Refusal::At(Fault::TooDeep, tokens));
            }
            return indexed(alloc, setting, room, name, rest);
        }
    }
    Ok((scalar(alloc, name)?, tokens))
}

/// Reads a place, whose index may take `room` levels.
#[tactic(auto, unfolding(crate::specs::Parsers::place))]
pub fn place<'a>(alloc: Global, setting: Setting, room: u8, tokens: &'a [Marked]) -> ParsedPlace<'a>
    requires { room ≤ 64 }
    ensures gives { GivesPlace result (spec.place (sight setting.entry) room tokens.now) }
    ensures low { IfOk result (λ x. x.0.levels ≤ room) }
{
    match next(tokens) {
        Some((token, rest)) => match name(setting.text, token.what) {
            Some(name) => place_behind(alloc, setting, room, name, rest),
            None => Err(Refusal::At(Fault::Syntax, tokens)),
        },
        None => Err(Refusal::At(Fault::Syntax, tokens)),
    }
}

/// Reads `&` and a place, whose index may take `room` levels.
#[tactic(auto, unfolding(crate::specs::Parsers::address))]
pub fn address<'a>(
    alloc: Global,
    setting: Setting,
    room: u8,
    tokens: &'a [Marked],
) -> ParsedPlace<'a>
    requires { room ≤ 64 }
    ensures gives { GivesPlace result (spec.address (sight setting.entry) room tokens.now) }
    ensures low { IfOk result (λ x. x.0.levels ≤ room) }
{
    let (_, rest) = sign(setting, Sign::Ampersand, tokens)?;
    place(alloc, setting, room, rest)
}
