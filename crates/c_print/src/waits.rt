// Programs with a wait that takes tokens.

ghost use Rattle.std.specs.Prelude.{◌≡◌, ◌||◌, map};
ghost use Rattle.c_tree.specs.Lined.{stmt_of, stmts_of, function_of, bare_stmt, bare_stmts, bare_function};
ghost use Rattle.c_canonical.specs.Waits as spec;

use c_tree::{Act, Function, Stmt};

fn either(a: bool, b: bool) -> bool
    ensures { result ≡ (a || b) }
{
    a || b
}

/// Whether a statement is a wait that takes tokens, or one inside it is.
#[cycle(waits)]
fn waits(s: &Stmt) -> bool
    ensures { result ≡ spec.waits (bare_stmt (stmt_of s.now)) }
{
    match &s.act {
        Act::If {
            then_arm,
            else_arm,
            ..
        } => {
            either(
                any_waits(then_arm.as_slice()),
                any_waits(else_arm.as_slice()),
            )
        }
        Act::TryLock { taken, busy, .. } => either(
            any_waits(taken.as_slice()),
            any_waits(busy.as_slice()),
        ),
        Act::While { body, .. } => any_waits(body.as_slice()),
        Act::For {
            first,
            step,
            body,
            ..
        } => {
            let parts_wait = either(any_waits(step.as_slice()), any_waits(body.as_slice()));
            either(any_waits(first.as_slice()), parts_wait)
        }
        Act::Wait { takes, .. } => !takes.is_empty(),
        Act::Declare { .. }
        | Act::Assign { .. }
        | Act::Call { .. }
        | Act::Return { .. }
        | Act::Read { .. }
        | Act::Print { .. }
        | Act::Create { .. }
        | Act::Join { .. }
        | Act::InitMutex { .. }
        | Act::InitCond { .. }
        | Act::Lock { .. }
        | Act::Unlock { .. }
        | Act::Signal { .. }
        | Act::Broadcast { .. }
        | Act::Take { .. }
        | Act::Give { .. } => false,
    }
}

/// Whether one of these statements is, or holds, a wait that takes tokens.
#[cycle(waits)]
fn any_waits(ss: &[Stmt]) -> bool
    ensures { result ≡ spec.any_waits (bare_stmts (stmts_of ss.now)) }
{
    for s in ss {
        if waits(s) {
            return true;
        }
    }
    false
}

/// Whether one of these functions has a wait that takes tokens.
pub fn some_waits(fs: &[Function]) -> bool
    ensures { result ≡ spec.some_waits (map bare_function (map function_of fs.now)) }
{
    for f in fs {
        if any_waits(f.body.as_slice()) {
            return true;
        }
    }
    false
}
