//! The parser of scalars and arrays of type `int`. Each function reads what the function of its name in
//! `specs/` does.

ghost use Rattle.std.specs.Prelude.{◌≡◌, ◌∷◌, IfOk};
ghost use Rattle.c_lexer.specs.declared.token.Sign.TheVariants.{Comma};
ghost use Rattle.parse_laws.specs.Gives.{Gives};
ghost use Rattle.parse_laws.specs.Parser.{must};
ghost use Rattle.c_expressions.specs.Gives.{sight};
ghost use Rattle.c_expressions.specs.Parsers.{is};
ghost use Rattle.c_declarations.specs.Words.{int_holds};
ghost use Rattle.c_declarations.specs.Parsers as spec;

use crate::token::{Read, cell_name, is_comma, length_behind};
use crate::tree::{Declared, Ints};
use crate::value::{value, values};
use c_expressions::expression::sign;
use c_expressions::token::{Marked, Setting, is_sign};
use c_lexer::Sign;
use c_tree::{Array, Cell, Values};
use parse_laws::fault::{Fault, Refusal};
use parse_laws::token::next;
use sqlite_items::Items;
use std::alloc::{AllocError, Global};

fn scalar(alloc: Global, line: u32, name: &[u8], value: i32) -> Result<Declared, AllocError>
    ensures { IfOk result (λ x. x ≡ spec.scalar line name.now value) }
{
    Ok(Declared::Scalar(Cell {
        name: Items::from_slice(alloc, name)?,
        value,
        line,
    }))
}

fn several(
    alloc: Global,
    line: u32,
    name: &[u8],
    len: u32,
    values: Values,
) -> Result<Declared, AllocError>
    ensures { IfOk result (λ x. x ≡ spec.several line name.now len values) }
{
    Ok(Declared::Several(Array {
        name: Items::from_slice(alloc, name)?,
        len,
        values,
        line,
    }))
}

// The values of an array, in braces.
fn braced_values<'a>(alloc: Global, setting: Setting, tokens: &'a [Marked]) -> Read<'a, Values>
    ensures { Gives result (spec.braced (sight setting.entry) (spec.values (sight setting.entry) int_holds) tokens.now) }
{
    let (_, rest) = sign(setting, Sign::LeftBrace, tokens)?;
    let (all, rest) = values(alloc, setting, rest)?;
    let (_, rest) = sign(setting, Sign::RightBrace, rest)?;
    Ok((all, rest))
}

// Behind the length of an array.
#[tactic(auto, unfolding(crate::specs::Parsers::array_end))]
fn array_end<'a>(
    alloc: Global,
    setting: Setting,
    line: u32,
    name: &[u8],
    len: u32,
    tokens: &'a [Marked],
) -> Read<'a, Declared>
    ensures { Gives result (spec.array_end (sight setting.entry) int_holds line name.now len tokens.now) }
{
    if let Some((token, rest)) = next(tokens) {
        if is_sign(Sign::Assign, token.what) {
            let (all, rest) = braced_values(alloc, setting, rest)?;
            return Ok((several(alloc, line, name, len, all)?, rest));
        }
    }
    Ok((several(alloc, line, name, len, Items::new(alloc))?, tokens))
}

// Behind `[`.
#[tactic(auto, unfolding(crate::specs::Parsers::array_behind))]
fn array_behind<'a>(
    alloc: Global,
    setting: Setting,
    line: u32,
    name: &[u8],
    tokens: &'a [Marked],
) -> Read<'a, Declared>
    ensures { Gives result (spec.array_behind (sight setting.entry) int_holds line name.now tokens.now) }
{
    let (len, rest) = length_behind(setting, tokens)?;
    array_end(alloc, setting, line, name, len, rest)
}

// Behind `=`.
#[tactic(auto, unfolding(crate::specs::Parsers::scalar_behind))]
fn scalar_behind<'a>(
    alloc: Global,
    setting: Setting,
    line: u32,
    name: &[u8],
    tokens: &'a [Marked],
) -> Read<'a, Declared>
    ensures { Gives result (spec.scalar_behind (sight setting.entry) int_holds line name.now tokens.now) }
{
    let (value, rest) = value(setting, tokens)?;
    Ok((scalar(alloc, line, name, value)?, rest))
}

// Behind the name of a scalar or an array.
#[tactic(auto, unfolding(crate::specs::Parsers::cell_behind))]
fn cell_behind<'a>(
    alloc: Global,
    setting: Setting,
    line: u32,
    name: &[u8],
    tokens: &'a [Marked],
) -> Read<'a, Declared>
    ensures { Gives result (spec.cell_behind (sight setting.entry) int_holds line name.now tokens.now) }
{
    if let Some((token, rest)) = next(tokens) {
        if is_sign(Sign::Assign, token.what) {
            return scalar_behind(alloc, setting, line, name, rest);
        }
        if is_sign(Sign::LeftBracket, token.what) {
            return array_behind(alloc, setting, line, name, rest);
        }
    }
    Ok((scalar(alloc, line, name, 0)?, tokens))
}

#[tactic(auto, unfolding(crate::specs::Parsers::cell))]
fn cell<'a>(alloc: Global, setting: Setting, tokens: &'a [Marked]) -> Read<'a, Declared>
    ensures { Gives result (spec.cell (sight setting.entry) int_holds tokens.now) }
{
    match next(tokens) {
        Some((token, rest)) => match cell_name(setting.text, token.what) {
            Some(name) => cell_behind(alloc, setting, token.line, name, rest),
            None => Err(Refusal::At(Fault::Syntax, tokens)),
        },
        None => Err(Refusal::At(Fault::Syntax, tokens)),
    }
}

// A comma, and a scalar or an array.
fn next_cell<'a>(alloc: Global, setting: Setting, tokens: &'a [Marked]) -> Read<'a, Declared>
    ensures { Gives result (must (is (sight setting.entry) Comma) (spec.cell (sight setting.entry) int_holds) tokens.now) }
{
    let (_, rest) = sign(setting, Sign::Comma, tokens)?;
    cell(alloc, setting, rest)
}

fn with_declared(all: Ints, one: Declared) -> Result<Ints, AllocError>
    ensures { IfOk result (λ more. more ≡ spec.with_declared all one) }
{
    let mut all = all;
    match one {
        Declared::Scalar(cell) => all.cells.push(cell)?,
        Declared::Several(array) => all.arrays.push(array)?,
    }
    Ok(all)
}

// Those behind the ones read so far.
fn more_cells<'a>(
    alloc: Global,
    setting: Setting,
    all: Ints,
    tokens: &'a [Marked],
) -> Read<'a, Ints>
    ensures { Gives result (spec.more_cells (sight setting.entry) int_holds all tokens.now) }
{
    let mut all = all;
    let mut rest = tokens;
    'turns: while is_comma(setting, rest) {
        let (one, after) = next_cell(alloc, setting, rest)?;
        all = with_declared(all, one)?;
        rest = after;
    }
    Ok((all, rest))
}

fn no_ints(alloc: Global) -> Ints
    ensures { result ≡ spec.no_ints }
{
    Ints {
        cells: Items::new(alloc),
        arrays: Items::new(alloc),
    }
}

/// Reads what stands behind the first name of a list of scalars and arrays, with the `;` that ends it.
#[tactic(auto, unfolding(crate::specs::Parsers::cells_behind))]
pub fn cells_behind<'a>(
    alloc: Global,
    setting: Setting,
    line: u32,
    name: &[u8],
    tokens: &'a [Marked],
) -> Read<'a, Ints>
    ensures { Gives result (spec.cells_behind (sight setting.entry) int_holds line name.now tokens.now) }
{
    let (first, rest) = cell_behind(alloc, setting, line, name, tokens)?;
    let all = with_declared(no_ints(alloc), first)?;
    let (all, rest) = more_cells(alloc, setting, all, rest)?;
    let (_, rest) = sign(setting, Sign::Semicolon, rest)?;
    Ok((all, rest))
}
