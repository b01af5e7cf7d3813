// Statements with those that they hold.

ghost use Rattle.std.specs.Prelude.{◌≡◌, ◌++◌, length, take, true, OnOk};
ghost use Rattle.c_tree.specs.Expressions.{expr_of, value_of};
ghost use Rattle.c_tree.specs.Lined.{stmt_of, stmts_of};
ghost use Rattle.c_rules.specs.Sites.{declared, locals_of};
ghost use Rattle.c_names.specs.Tables.{in_scope};
ghost use Rattle.c_acts.specs.First.{noted_all};
ghost use Rattle.c_acts.specs.Uses.{around};
ghost use Rattle.c_acts.specs.Acts as acts;
ghost use Rattle.c_check.specs.Walk as spec;

use c_acts::{Break, Inside, check_act, check_expr, check_local, check_place, check_value};
use c_names::{Scope, enter};
use c_rules::Role;
use c_tree::{Act, Expr, Stmt};
use std::alloc::AllocError;

/// Looks at a local that is declared, with its value, in which it is in scope. The one error is
/// want of memory.
fn check_declare<'p>(
    at: &Inside<'_, 'p>,
    scope: &mut Scope<'p>,
    first: &mut Option<Break>,
    line: u32,
    name: &'p [u8],
    value: &Option<Expr>,
) -> Result<(), AllocError>
    ensures breaks { OnOk result (first.new ≡ noted_all first.old (acts.declare_breaks (around at.now) (in_scope scope.old) line name.now (value_of value.now))) }
    ensures scoped { OnOk result (in_scope scope.new ≡ acts.entered name.now (in_scope scope.old)) }
    ensures behind { OnOk result (take (length scope.old.keys) scope.new.keys ≡ scope.old.keys) }
{
    check_local(at, scope, first, line, name);
    enter(scope, name)?;
    check_value(at, scope, first, line, value);
    Ok(())
}

/// Looks at a statement with those that it holds. A create or a join that it is itself may not be
/// fixed, and an init in it may be late. The one error is want of memory.
#[cycle(walk)]
pub fn check_stmt<'p>(
    at: &Inside<'_, 'p>,
    scope: &mut Scope<'p>,
    first: &mut Option<Break>,
    s: &'p Stmt,
    unfixed: bool,
    late: bool,
) -> Result<(), AllocError>
    ensures breaks { OnOk result (first.new ≡ noted_all first.old (spec.stmt_breaks (around at.now) (in_scope scope.old) unfixed late (stmt_of s.now))) }
    ensures scoped { OnOk result (in_scope scope.new ≡ spec.with_names (declared (stmt_of s.now)) (in_scope scope.old)) }
    ensures behind { OnOk result (take (length scope.old.keys) scope.new.keys ≡ scope.old.keys) }
{
    match &s.act {
        Act::Declare { name, value } => {
            check_declare(at, scope, first, s.line, name.as_slice(), value)?;
            Ok(())
        }
        Act::If { .. } | Act::While { .. } | Act::For { .. } | Act::TryLock { .. } => {
            check_nest(at, scope, first, s, late)?;
            Ok(())
        }
        Act::Assign { .. }
        | Act::Call { .. }
        | Act::Return { .. }
        | Act::Read { .. }
        | Act::Print { .. }
        | Act::Create { .. }
        | Act::Join { .. }
        | Act::InitMutex { .. }
        | Act::InitCond { .. }
        | Act::Lock { .. }
        | Act::Unlock { .. }
        | Act::Wait { .. }
        | Act::Signal { .. }
        | Act::Broadcast { .. }
        | Act::Take { .. }
        | Act::Give { .. } => {
            check_act(at, scope, first, s, unfixed, late);
            Ok(())
        }
    }
}

/// Looks at an `if`, a `while`, a `for` or a trylock with what it holds, and passes over other
/// statements. The one error is want of memory.
#[cycle(walk)]
fn check_nest<'p>(
    at: &Inside<'_, 'p>,
    scope: &mut Scope<'p>,
    first: &mut Option<Break>,
    s: &'p Stmt,
    late: bool,
) -> Result<(), AllocError>
    ensures breaks { OnOk result (first.new ≡ noted_all first.old (spec.nest_breaks (around at.now) (in_scope scope.old) late (stmt_of s.now))) }
    ensures scoped { OnOk result (scope.new.keys ≡ scope.old.keys) }
{
    match &s.act {
        Act::If {
            test,
            then_arm,
            else_arm,
        } => {
            check_list(at, scope, first, then_arm.as_slice(), late)?;
            check_list(at, scope, first, else_arm.as_slice(), late)?;
            check_expr(at, scope, first, s.line, test);
            Ok(())
        }
        Act::While { test, body } => {
            check_list(at, scope, first, body.as_slice(), late)?;
            check_expr(at, scope, first, s.line, test);
            Ok(())
        }
        Act::For {
            first: part,
            test,
            step,
            body,
        } => {
            let outer = scope.len();
            check_open(at, scope, first, part.as_slice(), late)?;
            check_list(at, scope, first, step.as_slice(), late)?;
            check_list(at, scope, first, body.as_slice(), late)?;
            check_expr(at, scope, first, s.line, test);
            scope.truncate(outer);
            Ok(())
        }
        Act::TryLock { place, taken, busy } => {
            check_list(at, scope, first, taken.as_slice(), late)?;
            check_list(at, scope, first, busy.as_slice(), late)?;
            check_place(at, scope, first, s.line, place, Role::OfMutex);
            Ok(())
        }
        _ => Ok(()),
    }
}

/// Looks at a list of statements, whose locals stay in scope. The one error is want of memory.
#[cycle(walk)]
fn check_open<'p>(
    at: &Inside<'_, 'p>,
    scope: &mut Scope<'p>,
    first: &mut Option<Break>,
    ss: &'p [Stmt],
    late: bool,
) -> Result<(), AllocError>
    ensures breaks { OnOk result (first.new ≡ noted_all first.old (spec.list_breaks (around at.now) (in_scope scope.old) late (stmts_of ss.now))) }
    ensures scoped { OnOk result (in_scope scope.new ≡ spec.with_names (locals_of (stmts_of ss.now)) (in_scope scope.old)) }
    ensures behind { OnOk result (take (length scope.old.keys) scope.new.keys ≡ scope.old.keys) }
{
    for s in ss {
        check_stmt(at, scope, first, s, true, late)?;
    }
    Ok(())
}

/// Looks at a list of statements, whose locals go out of scope at its end. The one error is want
/// of memory.
#[cycle(walk)]
fn check_list<'p>(
    at: &Inside<'_, 'p>,
    scope: &mut Scope<'p>,
    first: &mut Option<Break>,
    ss: &'p [Stmt],
    late: bool,
) -> Result<(), AllocError>
    ensures breaks { OnOk result (first.new ≡ noted_all first.old (spec.list_breaks (around at.now) (in_scope scope.old) late (stmts_of ss.now))) }
    ensures scoped { OnOk result (scope.new.keys ≡ scope.old.keys) }
{
    let outer = scope.len();
    check_open(at, scope, first, ss, late)?;
    scope.truncate(outer);
    Ok(())
}
