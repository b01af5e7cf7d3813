// How deep the lists of statements stand inside one another.
ghost use Rattle.std.specs.Prelude.{◌≡◌, ◌+◌, IfOk};
ghost use Rattle.c_frames.specs.Heights.{height, height_inside};
ghost use Rattle.c_meaning.specs.Shown.{shown_stmt, shown_body};

use c_tree::{Act, Stmt};
use std::alloc::AllocError;

/// A height one more. No frame that is higher than a `usize` finds memory.
fn one_more(height: usize) -> Result<usize, AllocError>
    ensures { IfOk result (λ more. more ≡ height + 1) }
{
    height.checked_add(1).ok_or(AllocError)
}

/// The height of a list, where a frame of it may find memory.
#[cycle(height)]
pub fn height(ss: &[Stmt]) -> Result<usize, AllocError>
    ensures { IfOk result (λ high. high ≡ height (shown_body ss.now)) }
{
    let mut high = 0;
    for s in ss {
        high = one_more(height_inside(s)?)?.max(high);
    }
    Ok(high)
}

/// The height of the highest list that can be entered in a statement.
#[cycle(height)]
fn height_inside(s: &Stmt) -> Result<usize, AllocError>
    ensures { IfOk result (λ high. high ≡ height_inside (shown_stmt s.now)) }
{
    match &s.act {
        Act::If {
            then_arm,
            else_arm,
            ..
        } => Ok(height(then_arm.as_slice())?.max(height(else_arm.as_slice())?)),
        Act::While { body, .. } => height(body.as_slice()),
        Act::For { step, body, .. } => Ok(height(step.as_slice())?.max(height(body.as_slice())?)),
        Act::TryLock { taken, busy, .. } => {
            Ok(height(taken.as_slice())?.max(height(busy.as_slice())?))
        }
        _ => Ok(0),
    }
}
