// The frames of a program's calls.
ghost use Rattle.std.specs.Prelude.{◌≡◌, IfSome, IsNone, Some, None, slice_get};
ghost use Rattle.c_tree.specs.Bare as bare;
ghost use Rattle.c_tree.specs.Bare.{Stmts, Cons};
ghost use Rattle.c_meaning.specs.State.{frame};
ghost use Rattle.c_tree.specs.declared.program.Program as tree;
ghost use Rattle.c_frames.specs.Names.{IsAmong};
ghost use Rattle.c_frames.specs.LocalValues.{changed};
ghost use Rattle.state_parts.specs.First.{NamesHave};
ghost use Rattle.state_parts.specs.Threads.{frame_in};
ghost use Rattle.state_parts.specs.Valid.{IsFrameIn};
ghost use Rattle.state_parts.specs.Onward.{onward};

use crate::tables::Tables;
use c_frames::{Arm, Frame, LocalNames};
use c_tree::{Function, Program};

/// Where a frame goes on, from its first statement.
#[derive(Clone, Copy, Debug, PartialEq, Eq)]
pub enum Onward {
    /// Behind the statement.
    Past,
    /// In a part of the statement.
    Into(Arm),
    /// At the loop of a `for` whose first part is done.
    Loop,
}

/// The function of a frame.
pub fn function_in<'a>(p: &'a Program, x: &Frame) -> Option<&'a Function>
    ensures some { IfSome result (λ f. slice_get p.now.functions x.now.function ≡ Some f.now) }
    ensures none { IsNone result → slice_get p.now.functions x.now.function ≡ None }
{
    p.functions.as_slice().get(x.function())
}

/// The names of a frame's locals.
pub fn names_in<'a>(tables: &'a Tables, x: &Frame) -> Option<&'a LocalNames>
    ensures some { IfSome result (λ names. slice_get tables.now.names.items x.now.function ≡ Some names.now) }
    ensures none { IsNone result → slice_get tables.now.names.items x.now.function ≡ None }
{
    tables.names.get(x.function())
}

/// Gives a local of a frame a value, or takes its value away.
fn set_in(tables: &Tables, x: &mut Frame, name: &[u8], value: Option<i32>)
    requires among { NamesHave tables.now x.old (λ names. IsAmong names name.now) }
    requires valid { (p : tree.Program) × IsFrameIn p tables.now x.old }
    ensures sets { (p : tree.Program) → IsFrameIn p tables.now x.old
        → frame_in p tables.now x.new ≡ frame (changed (frame_in p tables.now x.old).locals name.now value) (frame_in p tables.now x.old).todo }
    ensures valid { (p : tree.Program) → IsFrameIn p tables.now x.old → IsFrameIn p tables.now x.new }
{
    if let Some(names) = names_in(tables, x) {
        x.set(names, name, value);
    }
}

/// A frame gives a local a value, or takes its value away, and goes on.
pub fn set_and_go_on(
    p: &Program,
    tables: &Tables,
    x: &mut Frame,
    name: &[u8],
    value: Option<i32>,
    to: Onward,
)
    requires valid { IsFrameIn p.now tables.now x.old }
    requires among { NamesHave tables.now x.old (λ names. IsAmong names name.now) }
    ensures goes { (s : bare.Stmt) (rest : Stmts) → (frame_in p.now tables.now x.old).todo ≡ Cons s rest
        → frame_in p.now tables.now x.new ≡ frame (changed (frame_in p.now tables.now x.old).locals name.now value) (onward to s rest) }
    ensures valid { IsFrameIn p.now tables.now x.new }
{
    set_in(tables, x, name, value);
    go_on(p, tables, x, to);
}

/// A frame goes on.
pub fn go_on(p: &Program, tables: &Tables, x: &mut Frame, to: Onward)
    requires { IsFrameIn p.now tables.now x.old }
    ensures goes { (s : bare.Stmt) (rest : Stmts) → (frame_in p.now tables.now x.old).todo ≡ Cons s rest
        → frame_in p.now tables.now x.new ≡ frame (frame_in p.now tables.now x.old).locals (onward to s rest) }
    ensures valid { IsFrameIn p.now tables.now x.new }
{
    if let Some(f) = function_in(p, x) {
        match to {
            Onward::Past => x.pass(f),
            Onward::Into(arm) => x.enter(f, arm),
            Onward::Loop => x.begin(f),
        }
    }
}
