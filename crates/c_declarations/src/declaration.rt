//! The parser of what `int` begins outside functions. Each function reads what the function of its name in
//! `specs/` does.

ghost use Rattle.std.specs.Prelude.{◌≡◌, ◌∷◌};
ghost use Rattle.parse_laws.specs.Gives.{Gives};
ghost use Rattle.c_expressions.specs.Gives.{sight};
ghost use Rattle.c_declarations.specs.Words.{int_holds};
ghost use Rattle.c_declarations.specs.Parsers as spec;

use crate::capacity::capacities;
use crate::cell::cells_behind;
use crate::function::{int_head, main_head};
use crate::token::Read;
use crate::tree::Begun;
use c_expressions::expression::sign;
use c_expressions::token::{Marked, Setting, What, is_sign, name as name_of};
use c_grammar::FixedWord;
use c_lexer::Sign;
use parse_laws::fault::{Fault, Refusal};
use parse_laws::token::next;
use std::alloc::Global;

fn cells<'a>(
    alloc: Global,
    setting: Setting,
    line: u32,
    name: &[u8],
    tokens: &'a [Marked],
) -> Read<'a, Begun>
    ensures { Gives result (spec.by_cells (spec.cells_behind (sight setting.entry) int_holds line name.now) tokens.now) }
{
    let (all, rest) = cells_behind(alloc, setting, line, name, tokens)?;
    Ok((Begun::Cells(all), rest))
}

// Behind `int main`.
#[tactic(auto, unfolding(crate::specs::Parsers::head_or_cells))]
fn main_or_cells<'a>(
    alloc: Global,
    setting: Setting,
    line: u32,
    name_line: u32,
    tokens: &'a [Marked],
) -> Read<'a, Begun>
    ensures { Gives result (spec.main_or_cells (sight setting.entry) int_holds line name_line tokens.now) }
{
    if let Some((token, rest)) = next(tokens) {
        if is_sign(Sign::LeftParenthesis, token.what) {
            let (head, rest) = main_head(alloc, setting, line, rest)?;
            return Ok((Begun::Head(head), rest));
        }
    }
    cells(alloc, setting, name_line, b"main", tokens)
}

// Behind `int` and another name.
#[tactic(auto, unfolding(crate::specs::Parsers::head_or_cells))]
fn function_or_cells<'a>(
    alloc: Global,
    setting: Setting,
    line: u32,
    name_line: u32,
    name: &[u8],
    tokens: &'a [Marked],
) -> Read<'a, Begun>
    ensures { Gives result (spec.function_or_cells (sight setting.entry) int_holds line name_line name.now tokens.now) }
{
    if let Some((token, rest)) = next(tokens) {
        if is_sign(Sign::LeftParenthesis, token.what) {
            let (head, rest) = int_head(alloc, setting, line, name, rest)?;
            return Ok((Begun::Head(head), rest));
        }
    }
    cells(alloc, setting, name_line, name, tokens)
}

// A function by the name of the capacities, from its `(` on.
fn capacities_head<'a>(
    alloc: Global,
    setting: Setting,
    line: u32,
    tokens: &'a [Marked],
) -> Read<'a, Begun>
    ensures { Gives result (spec.capacities_head (sight setting.entry) line tokens.now) }
{
    let (_, rest) = sign(setting, Sign::LeftParenthesis, tokens)?;
    let (head, rest) = int_head(alloc, setting, line, b"gd_cap", rest)?;
    Ok((Begun::Head(head), rest))
}

// Behind `int gd_cap`.
#[tactic(auto, unfolding(crate::specs::Parsers::capacities_or_head))]
fn capacities_or_head<'a>(
    alloc: Global,
    setting: Setting,
    first: bool,
    line: u32,
    name_line: u32,
    tokens: &'a [Marked],
) -> Read<'a, Begun>
    ensures { Gives result (spec.capacities_or_head (sight setting.entry) first line name_line tokens.now) }
{
    if let Some((token, rest)) = next(tokens) {
        if is_sign(Sign::LeftBracket, token.what) && first {
            let (capacities, rest) = capacities(alloc, setting, name_line, rest)?;
            return Ok((Begun::Capacities(capacities), rest));
        }
    }
    capacities_head(alloc, setting, line, tokens)
}

/// Reads what stands behind `int` outside functions, on the line of `int`: scalars and arrays up to their `;`,
/// the head of a function up to its `)`, or the capacities, where nothing stands before the `int`.
#[tactic(auto, unfolding(crate::specs::Parsers::behind_int))]
pub fn behind_int<'a>(
    alloc: Global,
    setting: Setting,
    first: bool,
    line: u32,
    tokens: &'a [Marked],
) -> Read<'a, Begun>
    ensures { Gives result (spec.behind_int (sight setting.entry) int_holds first line tokens.now) }
{
    match next(tokens) {
        Some((token, rest)) => match token.what {
            What::Fixed(FixedWord::Main) => main_or_cells(alloc, setting, line, token.line, rest),
            What::Fixed(FixedWord::Capacities) => {
                capacities_or_head(alloc, setting, first, line, token.line, rest)
            }
            _ => match name_of(setting.text, token.what) {
                Some(name) => function_or_cells(alloc, setting, line, token.line, name, rest),
                None => Err(Refusal::At(Fault::Syntax, tokens)),
            },
        },
        None => Err(Refusal::At(Fault::Syntax, tokens)),
    }
}
