//! The parser of what follows a place that is assigned to, counted up or down.

ghost use Rattle.std.specs.Prelude.{◌≡◌, ◌<◌, ◌≤◌, IfOk};
ghost use Rattle.c_tree.specs.Expressions.{place_of};
ghost use Rattle.c_expressions.specs.Gives.{sight, tall_of};
ghost use Rattle.c_simple.specs.Gives.{GivesStatements};
ghost use Rattle.c_simple.specs.Parsers as spec;

use crate::token::{Way, way_of};
use crate::trees::{change_by, counted, set_to};
use crate::values::{Source, value_or_call};
use c_expressions::expression::expression;
use c_expressions::part::place;
use c_expressions::tall::Tall;
use c_expressions::token::{Marked, Setting};
use c_tree::{Op, Place, Stmts};
use parse_laws::fault::{Fault, Refusal};
use parse_laws::token::next;
use std::alloc::Global;

/// Statements, their levels and the tokens after them.
pub type ParsedStatements<'a> = Result<(Tall<Stmts>, &'a [Marked]), Refusal<'a, Marked>>;

// Behind `=`, in a statement that may have a call.
fn set<'a>(
    alloc: Global,
    setting: Setting,
    room: u8,
    line: u32,
    target: Tall<Place>,
    tokens: &'a [Marked],
) -> ParsedStatements<'a>
    requires room { room ≤ 64 }
    requires target { target.levels ≤ 64 }
    ensures { GivesStatements result (spec.set (sight setting.entry) room line (tall_of place_of target) tokens.now) }
{
    let (source, rest) = value_or_call(alloc, setting, room, tokens)?;
    Ok((set_to(alloc, line, target, source)?, rest))
}

// Behind `=`, in a step.
fn set_value<'a>(
    alloc: Global,
    setting: Setting,
    room: u8,
    line: u32,
    target: Tall<Place>,
    tokens: &'a [Marked],
) -> ParsedStatements<'a>
    requires room { room ≤ 64 }
    requires target { target.levels ≤ 64 }
    ensures { GivesStatements result (spec.set_value (sight setting.entry) room line (tall_of place_of target) tokens.now) }
{
    let (value, rest) = expression(alloc, setting, room, tokens)?;
    Ok((set_to(alloc, line, target, Source::Value(value))?, rest))
}

// Behind the sign of an operator that changes a place.
fn change<'a>(
    alloc: Global,
    setting: Setting,
    room: u8,
    line: u32,
    op: Op,
    target: Tall<Place>,
    tokens: &'a [Marked],
) -> ParsedStatements<'a>
    requires room { room ≤ 64 }
    requires target { target.levels ≤ 64 }
    ensures { GivesStatements result (spec.change (sight setting.entry) room line op (tall_of place_of target) tokens.now) }
{
    let (value, rest) = expression(alloc, setting, room, tokens)?;
    Ok((change_by(alloc, line, op, target, value)?, rest))
}

/// Reads what follows a place, in a statement that may have a call. What stands there may take `room` levels,
/// and one more where it ends in `( intptr_t )`.
pub fn assigned<'a>(
    alloc: Global,
    setting: Setting,
    room: u8,
    line: u32,
    target: Tall<Place>,
    tokens: &'a [Marked],
) -> ParsedStatements<'a>
    requires room { room ≤ 64 }
    requires target { target.levels ≤ 64 }
    ensures { GivesStatements result (spec.assigned (sight setting.entry) room line (tall_of place_of target) tokens.now) }
{
    let Some((token, rest)) = next(tokens) else {
        return Err(Refusal::At(Fault::Syntax, tokens));
    };
    match way_of(token.what) {
        Way::Set => set(alloc, setting, room, line, target, rest),
        Way::Change(_) if room == 0 => Err(Refusal::At(Fault::TooDeep, tokens)),
        Way::Change(op) => change(alloc, setting, room, line, op, target, rest),
        Way::Count(op) => Ok((counted(alloc, line, op, target)?, rest)),
        Way::Other => Err(Refusal::At(Fault::Syntax, tokens)),
    }
}

/// The same in a step, which has no call.
pub fn stepped<'a>(
    alloc: Global,
    setting: Setting,
    room: u8,
    line: u32,
    target: Tall<Place>,
    tokens: &'a [Marked],
) -> ParsedStatements<'a>
    requires room { room ≤ 64 }
    requires target { target.levels ≤ 64 }
    ensures { GivesStatements result (spec.stepped (sight setting.entry) room line (tall_of place_of target) tokens.now) }
{
    let Some((token, rest)) = next(tokens) else {
        return Err(Refusal::At(Fault::Syntax, tokens));
    };
    match way_of(token.what) {
        Way::Set | Way::Change(_) if room == 0 => Err(Refusal::At(Fault::TooDeep, tokens)),
        Way::Set => set_value(alloc, setting, room, line, target, rest),
        Way::Change(op) => change(alloc, setting, room, line, op, target, rest),
        Way::Count(op) => Ok((counted(alloc, line, op, target)?, rest)),
        Way::Other => Err(Refusal::At(Fault::Syntax, tokens)),
    }
}

/// Reads the place behind `++` or `--`.
#[tactic(auto, unfolding(crate::specs::Parsers::count_first))]
pub fn count_first<'a>(
    alloc: Global,
    setting: Setting,
    room: u8,
    line: u32,
    op: Op,
    tokens: &'a [Marked],
) -> ParsedStatements<'a>
    requires { room ≤ 64 }
    ensures { GivesStatements result (spec.count_first (sight setting.entry) room line op tokens.now) }
{
    let (target, rest) = place(alloc, setting, room, tokens)?;
    Ok((counted(alloc, line, op, target)?, rest))
}
