// The statements of a function as one list, with what of each matters for points.
ghost use Rattle.std.specs.Prelude.{◌≡◌, ◌++◌, [], OnOk};
ghost use Rattle.c_tree.specs.Lined.{stmt_of, stmts_of};
ghost use Rattle.flow_graph.specs.Shapes as spec;
ghost use Rattle.flow_graph.specs.Shown.{shown_shape, shown_shapes, list_shapes};

use c_tree::{Act, Stmt};
use std::alloc::AllocError;

/// What of a statement matters for points, with its line, or the end of an arm or a body.
#[derive(Clone, Copy, Debug)]
pub enum Shape<'p> {
    /// A statement with one way on.
    Step(u32),
    /// A join.
    Join(u32),
    /// A return, or the end of a function.
    Leave(u32),
    /// A lock or a take.
    Acquire(u32),
    /// An unlock or a give.
    Release(u32),
    /// A wait that takes these monitors.
    Wait(u32, &'p [u32]),
    /// A trylock: the arm where it is taken, `Else`, the other arm and `ArmsEnd` follow.
    Try(u32),
    /// A test: an arm, `Else`, the other arm and `ArmsEnd` follow.
    Branch(u32),
    /// The end of a first arm.
    Else,
    /// The end of a second arm.
    ArmsEnd,
    /// A loop: its body and `LoopEnd` follow.
    Loop(u32),
    /// The end of a body.
    LoopEnd,
    /// A call of a function of this name.
    Call(u32, &'p [u8]),
}

/// The first shape of a statement.
fn first_shape<'p>(s: &'p Stmt) -> Shape<'p>
    ensures { shown_shape result ≡ spec.first_shape (stmt_of s.now) }
{
    let line = s.line;
    match &s.act {
        Act::Call { function, .. } => Shape::Call(line, function.as_slice()),
        Act::If { .. } => Shape::Branch(line),
        Act::While { .. } => Shape::Loop(line),
        Act::Return { .. } => Shape::Leave(line),
        Act::Join { .. } => Shape::Join(line),
        Act::Lock { .. } => Shape::Acquire(line),
        Act::TryLock { .. } => Shape::Try(line),
        Act::Unlock { .. } => Shape::Release(line),
        Act::Wait { takes, .. } => Shape::Wait(line, takes.as_slice()),
        Act::Take { .. } => Shape::Acquire(line),
        Act::Give { .. } => Shape::Release(line),
        Act::Declare { .. }
        | Act::Assign { .. }
        | Act::For { .. }
        | Act::Read { .. }
        | Act::Print { .. }
        | Act::Create { .. }
        | Act::InitMutex { .. }
        | Act::InitCond { .. }
        | Act::Signal { .. }
        | Act::Broadcast { .. } => Shape::Step(line),
    }
}

/// The shapes of a statement behind the first one, at the end of `out`. The one error is want of
/// memory.
#[cycle(shapes)]
fn push_others<'p>(out: &mut Vec<Shape<'p>>, s: &'p Stmt) -> Result<(), AllocError>
    ensures { OnOk result (shown_shapes out.new.items ≡ shown_shapes out.old.items ++ spec.other_shapes (stmt_of s.now)) }
{
    match &s.act {
        Act::If {
            then_arm,
            else_arm,
            ..
        } => {
            push_shapes(out, then_arm.as_slice())?;
            out.push(Shape::Else)?;
            push_shapes(out, else_arm.as_slice())?;
            out.push(Shape::ArmsEnd)?;
        }
        Act::While { body, .. } => {
            push_shapes(out, body.as_slice())?;
            out.push(Shape::LoopEnd)?;
        }
        Act::For { step, body, .. } => {
            out.push(Shape::Loop(s.line))?;
            push_shapes(out, body.as_slice())?;
            push_shapes(out, step.as_slice())?;
            out.push(Shape::LoopEnd)?;
        }
        Act::TryLock { taken, busy, .. } => {
            push_shapes(out, taken.as_slice())?;
            out.push(Shape::Else)?;
            push_shapes(out, busy.as_slice())?;
            out.push(Shape::ArmsEnd)?;
        }
        Act::Declare { .. }
        | Act::Assign { .. }
        | Act::Call { .. }
        | Act::Return { .. }
        | Act::Read { .. }
        | Act::Print { .. }
        | Act::Create { .. }
        | Act::Join { .. }
        | Act::InitMutex { .. }
        | Act::InitCond { .. }
        | Act::Lock { .. }
        | Act::Unlock { .. }
        | Act::Wait { .. }
        | Act::Signal { .. }
        | Act::Broadcast { .. }
        | Act::Take { .. }
        | Act::Give { .. } => {}
    }
    Ok(())
}

/// The shapes of a statement, at the end of `out`. The one error is want of memory.
#[cycle(shapes)]
fn push_shape<'p>(out: &mut Vec<Shape<'p>>, s: &'p Stmt) -> Result<(), AllocError>
    ensures { OnOk result (shown_shapes out.new.items ≡ shown_shapes out.old.items ++ spec.shapes (stmt_of s.now) []) }
{
    out.push(first_shape(s))?;
    push_others(out, s)?;
    Ok(())
}

/// The shapes of statements, at the end of `out`. The one error is want of memory.
#[cycle(shapes)]
pub fn push_shapes<'p>(out: &mut Vec<Shape<'p>>, ss: &'p [Stmt]) -> Result<(), AllocError>
    ensures { OnOk result (shown_shapes out.new.items ≡ shown_shapes out.old.items ++ list_shapes (stmts_of ss.now)) }
{
    for s in ss {
        push_shape(out, s)?;
    }
    Ok(())
}
