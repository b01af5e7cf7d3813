// The frames in which calls and threads begin.
ghost use Rattle.std.specs.Prelude.{◌≡◌, ◌∷◌, [], IfOk, IfSome, option_map, slice_get};
ghost use Rattle.c_tree.specs.Expressions.{expr_of};
ghost use Rattle.c_tree.specs.Numbering.{function_named};
ghost use Rattle.c_tree.specs.Values as values;
ghost use Rattle.c_meaning.specs.Shown.{shown};
ghost use Rattle.c_meaning.specs.State.{frame};
ghost use Rattle.c_meaning.specs.Calls.{passed};
ghost use Rattle.c_meaning.specs.Threads.{first_frame};
ghost use Rattle.c_meaning.specs.Numbers.{HasSmallNumbers};
ghost use Rattle.state_parts.specs.Threads.{frame_in, frames_in};
ghost use Rattle.state_parts.specs.Valid.{AreTablesOf, IsFrameIn, AreFramesIn};

use crate::tables::Tables;
use c_frames::{Frame, LocalNames};
use c_meaning::{Scope, value};
use c_tree::{Expr, Function, Program};
use std::alloc::{AllocError, Global};

/// No name stands for anything, as in constants.
struct NoNames;

impl Scope for NoNames {
    ghost values = { λ scope. values.no_values };

    fn scalar(&self, _name: &[u8]) -> Option<i32> {
        None
    }

    fn element(&self, _name: &[u8], _index: i32) -> Option<i32> {
        None
    }
}

/// The value of an expression of numbers.
fn constant(e: &Expr) -> Option<i32>
    requires { HasSmallNumbers (expr_of e.now) }
    ensures { result ≡ values.constant (expr_of e.now) }
{
    value(&NoNames, e)
}

/// The function at a place.
fn function_at(p: &Program, function: usize) -> Option<&Function>
    ensures { option_map (λ f. f.now) result ≡ slice_get p.now.functions function }
{
    p.functions.as_slice().get(function)
}

/// The names of the locals of the function at a place.
fn names_at(tables: &Tables, function: usize) -> Option<&LocalNames>
    ensures { option_map (λ names. names.now) result ≡ slice_get tables.now.names.items function }
{
    tables.names.get(function)
}

/// A call of the function of a name, of which nothing is done yet, where there is such a function. The one error is want
/// of memory.
pub fn make_frame(
    alloc: Global,
    p: &Program,
    tables: &Tables,
    name: &[u8],
    args: &[i32],
) -> Result<Option<Frame>, AllocError>
    requires { AreTablesOf p.now tables.now }
    ensures is { IfOk result (λ made. option_map (frame_in p.now tables.now) made ≡ option_map (λ f. frame (passed f.params args.now) f.body) (function_named (shown p.now) name.now)) }
    ensures valid { IfOk result (λ made. IfSome made (IsFrameIn p.now tables.now)) }
{
    let Some(function) = tables.numbers.function(name) else {
        return Ok(None);
    };
    let Some(f) = function_at(p, function) else {
        return Ok(None);
    };
    let Some(names) = names_at(tables, function) else {
        return Ok(None);
    };
    Ok(Some(Frame::new(alloc, names, function, f, args)?))
}

/// The frames in which a thread begins: one, of its start function with its argument. The one error is want of memory.
pub fn first_frames(
    alloc: Global,
    p: &Program,
    tables: &Tables,
    name: &[u8],
    arg: &Expr,
) -> Result<Option<Vec<Frame>>, AllocError>
    requires tables { AreTablesOf p.now tables.now }
    requires small { HasSmallNumbers (expr_of arg.now) }
    ensures is { IfOk result (λ made. option_map (λ frames. frames_in p.now tables.now frames.items) made
        ≡ option_map (λ f. f ∷ []) (first_frame (function_named (shown p.now) name.now) (values.constant (expr_of arg.now)))) }
    ensures valid { IfOk result (λ made. IfSome made (λ frames. AreFramesIn p.now tables.now frames.items)) }
{
    let Some(z) = constant(arg) else {
        return Ok(None);
    };
    let Some(frame) = make_frame(alloc, p, tables, name, &[z])? else {
        return Ok(None);
    };
    let mut frames = Vec::new(alloc);
    frames.push(frame)?;
    Ok(Some(frames))
}
