// The statements of a function's own list.

ghost use Rattle.std.specs.Prelude.{◌≡◌, ◌||◌, List, map, option_map, length, OnOk, IfOk};
ghost use Rattle.std.specs.List.{list_any};
ghost use Rattle.c_tree.specs.Expressions.{place_of, value_of};
ghost use Rattle.c_tree.specs.Lined.{stmt_of, stmts_of};
ghost use Rattle.c_rules.specs.Threads as threads;
ghost use Rattle.c_names.specs.Shown.{thing_of};
ghost use Rattle.c_names.specs.Tables.{in_scope};
ghost use Rattle.c_acts.specs.First.{noted_all};
ghost use Rattle.c_acts.specs.Uses.{around};
ghost use Rattle.c_check.specs.Slots.{has_slot};
ghost use Rattle.c_check.specs.Own as spec;

use crate::slots::{Slots, add_slot, has_slot};
use crate::walk::check_stmt;
use c_acts::{Break, Inside};
use c_names::{Scope, Thing, meaning, number_of};
use c_tree::{Act, Expr, Place, Stmt};
use indexmap::IndexSet;
use std::alloc::{AllocError, Global};

fn either(a: bool, b: bool) -> bool
    ensures { result ≡ (a || b) }
{
    a || b
}

/// Whether a statement may use an object, or holds one that may.
#[cycle(acts)]
pub fn acts(s: &Stmt) -> bool
    ensures { result ≡ spec.acts (stmt_of s.now) }
{
    match &s.act {
        Act::If {
            then_arm,
            else_arm,
            ..
        } => {
            either(
                list_acts(then_arm.as_slice()),
                list_acts(else_arm.as_slice()),
            )
        }
        Act::While { body, .. } => list_acts(body.as_slice()),
        Act::For {
            first,
            step,
            body,
            ..
        } => {
            let parts_act = either(list_acts(step.as_slice()), list_acts(body.as_slice()));
            either(list_acts(first.as_slice()), parts_act)
        }
        Act::Call { .. }
        | Act::Create { .. }
        | Act::Join { .. }
        | Act::Lock { .. }
        | Act::TryLock { .. }
        | Act::Unlock { .. }
        | Act::Wait { .. }
        | Act::Signal { .. }
        | Act::Broadcast { .. } => true,
        Act::Declare { .. }
        | Act::Assign { .. }
        | Act::Return { .. }
        | Act::Read { .. }
        | Act::Print { .. }
        | Act::InitMutex { .. }
        | Act::InitCond { .. }
        | Act::Take { .. }
        | Act::Give { .. } => false,
    }
}

/// Whether one of these statements may use an object, or holds one that may.
#[cycle(acts)]
fn list_acts(ss: &[Stmt]) -> bool
    ensures { result ≡ spec.list_acts (stmts_of ss.now) }
{
    for s in ss {
        if acts(s) {
            return true;
        }
    }
    false
}

/// The declared length of an array of threads; 0 for what is none.
fn thread_len(thing: &Option<Thing>) -> u32
    ensures { result ≡ threads.thread_len (option_map thing_of thing.now) }
{
    match thing {
        Some(Thing::Thread(len)) => len.unwrap_or(0),
        _ => 0,
    }
}

/// Whether an index, where there is one, is a constant of numbers within a length.
fn is_fixed_index(len: u32, index: &Option<Expr>) -> bool
    ensures { result ≡ threads.is_fixed_index len (value_of index.now) }
{
    match index {
        None => true,
        Some(e) => match number_of(e) {
            Some(k) => 0 <= k && k < len as i64,
            None => false,
        },
    }
}

/// Whether a slot has an index that is fixed, in main.
fn is_fixed_slot(at: &Inside, scope: &Scope, main: bool, slot: &Place) -> bool
    ensures { result ≡ spec.is_fixed_slot (around at.now) (in_scope scope.now) main (place_of slot.now) }
{
    let thing = meaning(at.names, scope, at.function, slot.name.as_slice());
    main && is_fixed_index(thread_len(&thing), &slot.index)
}

/// What the statements of main's own list did so far.
#[derive(Drop)]
pub struct Past<'p> {
    /// The slots of the creates.
    created: Slots<'p>,
    /// The slots of the joins.
    joined: Slots<'p>,
    /// Whether some of them may use an object.
    active: bool,
}

/// Whether a statement is a create or a join that isn't fixed.
fn is_unfixed(at: &Inside, scope: &Scope, main: bool, past: &Past, s: &Stmt) -> bool
    ensures { result ≡ spec.is_unfixed (around at.now) (in_scope scope.now) main (spec.past_of past.now) (stmt_of s.now) }
{
    match &s.act {
        Act::Create { slot, .. } => {
            !is_fixed_slot(at, scope, main, slot) || has_slot(&past.created, slot)
        }
        Act::Join { slot } => {
            !is_fixed_slot(at, scope, main, slot)
                || !has_slot(&past.created, slot)
                || has_slot(&past.joined, slot)
        }
        Act::Declare { .. }
        | Act::Assign { .. }
        | Act::Call { .. }
        | Act::If { .. }
        | Act::While { .. }
        | Act::For { .. }
        | Act::Return { .. }
        | Act::Read { .. }
        | Act::Print { .. }
        | Act::InitMutex { .. }
        | Act::InitCond { .. }
        | Act::Lock { .. }
        | Act::TryLock { .. }
        | Act::Unlock { .. }
        | Act::Wait { .. }
        | Act::Signal { .. }
        | Act::Broadcast { .. }
        | Act::Take { .. }
        | Act::Give { .. } => false,
    }
}

/// Keeps the slot of a create. The one error is want of memory.
fn add_created<'p>(created: &mut Slots<'p>, s: &'p Stmt) -> Result<(), AllocError>
    ensures { OnOk result (has_slot created.new ≡ spec.create_added (has_slot created.old) (stmt_of s.now)) }
{
    if let Act::Create { slot, .. } = &s.act {
        add_slot(created, slot)?;
    }
    Ok(())
}

/// Keeps the slot of a join. The one error is want of memory.
fn add_joined<'p>(joined: &mut Slots<'p>, s: &'p Stmt) -> Result<(), AllocError>
    ensures { OnOk result (has_slot joined.new ≡ spec.join_added (has_slot joined.old) (stmt_of s.now)) }
{
    if let Act::Join { slot } = &s.act {
        add_slot(joined, slot)?;
    }
    Ok(())
}

impl<'p> Past<'p> {
    /// Nothing so far.
    pub fn new(alloc: Global) -> Past<'p>
        ensures { spec.past_of result ≡ spec.nothing_past }
    {
        Past {
            created: IndexSet::new(alloc),
            joined: IndexSet::new(alloc),
            active: false,
        }
    }

    /// Adds a statement, which may use an object or not. The one error is want of memory.
    pub fn add(&mut self, s: &'p Stmt, active: bool) -> Result<(), AllocError>
        requires { active ≡ spec.acts (stmt_of s.now) }
        ensures { OnOk result (spec.past_of self.new ≡ spec.added (spec.past_of self.old) (stmt_of s.now)) }
    {
        add_created(&mut self.created, s)?;
        add_joined(&mut self.joined, s)?;
        self.active = either(active, self.active);
        Ok(())
    }
}

/// Looks at the statements of a function's own list. Their locals stay in scope. The one error is
/// want of memory.
pub fn check_own<'p>(
    alloc: Global,
    at: &Inside<'_, 'p>,
    scope: &mut Scope<'p>,
    first: &mut Option<Break>,
    main: bool,
    body: &'p [Stmt],
) -> Result<(), AllocError>
    ensures { OnOk result (first.new ≡ noted_all first.old (spec.own_breaks (around at.now) main (in_scope scope.old) spec.nothing_past (stmts_of body.now))) }
{
    let mut past = Past::new(alloc);
    for s in body {
        let active = acts(s);
        let unfixed = is_unfixed(at, scope, main, &past, s);
        let late = either(!main, either(active, past.active));
        check_stmt(at, scope, first, s, unfixed, late)?;
        past.add(s, active)?;
    }
    Ok(())
}
