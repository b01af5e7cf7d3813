// The statements of a function that matter for contexts, as one list.
ghost use Rattle.std.specs.Prelude.{◌≡◌, ◌++◌, [], OnOk};
ghost use Rattle.c_tree.specs.Lined.{stmt_of, stmts_of};
ghost use Rattle.context_items.specs.Items as spec;
ghost use Rattle.context_walk.specs.Shown.{shown_items, block_items, list_items};

use c_tree::{Act, Expr, Place, Stmt};
use std::alloc::AllocError;

/// A statement that matters for contexts, or an end of a block.
#[derive(Clone, Copy, Debug)]
pub enum Item<'p> {
    /// A block begins.
    Opens,
    /// The last block that began ends.
    Closes,
    /// A local is declared, with a value or without.
    Declares(&'p [u8], &'p Option<Expr>),
    /// At a line a mutex is locked, tried, unlocked or waited with.
    Locks(u32, &'p Place),
    /// A token of this monitor is taken or given.
    Holds(u32),
    /// A function is called with these arguments.
    Calls(&'p [u8], &'p [Expr]),
}

/// The items of an arm or a body, at the end of `out`. The one error is want of memory.
#[cycle(items)]
fn push_block<'p>(out: &mut Vec<Item<'p>>, ss: &'p [Stmt]) -> Result<(), AllocError>
    ensures { OnOk result (shown_items out.new.items ≡ shown_items out.old.items ++ block_items (stmts_of ss.now)) }
{
    out.push(Item::Opens)?;
    push_items(out, ss)?;
    out.push(Item::Closes)?;
    Ok(())
}

/// The items of a statement, at the end of `out`. The one error is want of memory.
#[cycle(items)]
fn push_item<'p>(out: &mut Vec<Item<'p>>, s: &'p Stmt) -> Result<(), AllocError>
    ensures { OnOk result (shown_items out.new.items ≡ shown_items out.old.items ++ spec.items (stmt_of s.now) []) }
{
    match &s.act {
        Act::Declare { name, value } => {
            out.push(Item::Declares(name.as_slice(), value))?;
            Ok(())
        }
        Act::Call { function, args, .. } => {
            out.push(Item::Calls(function.as_slice(), args.as_slice()))?;
            Ok(())
        }
        Act::If {
            then_arm,
            else_arm,
            ..
        } => {
            push_block(out, then_arm.as_slice())?;
            push_block(out, else_arm.as_slice())?;
            Ok(())
        }
        Act::While { body, .. } => {
            push_block(out, body.as_slice())?;
            Ok(())
        }
        Act::For {
            first,
            step,
            body,
            ..
        } => {
            out.push(Item::Opens)?;
            push_items(out, first.as_slice())?;
            push_items(out, body.as_slice())?;
            push_items(out, step.as_slice())?;
            out.push(Item::Closes)?;
            Ok(())
        }
        Act::Lock { place } => {
            out.push(Item::Locks(s.line, place))?;
            Ok(())
        }
        Act::TryLock { place, taken, busy } => {
            out.push(Item::Locks(s.line, place))?;
            push_block(out, taken.as_slice())?;
            push_block(out, busy.as_slice())?;
            Ok(())
        }
        Act::Unlock { place } => {
            out.push(Item::Locks(s.line, place))?;
            Ok(())
        }
        Act::Wait { mutex, .. } => {
            out.push(Item::Locks(s.line, mutex))?;
            Ok(())
        }
        Act::Take { monitor } => {
            out.push(Item::Holds(*monitor))?;
            Ok(())
        }
        Act::Give { monitor } => {
            out.push(Item::Holds(*monitor))?;
            Ok(())
        }
        Act::Assign { .. }
        | Act::Return { .. }
        | Act::Read { .. }
        | Act::Print { .. }
        | Act::Create { .. }
        | Act::Join { .. }
        | Act::InitMutex { .. }
        | Act::InitCond { .. }
        | Act::Signal { .. }
        | Act::Broadcast { .. } => Ok(()),
    }
}

/// The items of statements, at the end of `out`. The one error is want of memory.
#[cycle(items)]
pub fn push_items<'p>(out: &mut Vec<Item<'p>>, ss: &'p [Stmt]) -> Result<(), AllocError>
    ensures { OnOk result (shown_items out.new.items ≡ shown_items out.old.items ++ list_items (stmts_of ss.now)) }
{
    for s in ss {
        push_item(out, s)?;
    }
    Ok(())
}
