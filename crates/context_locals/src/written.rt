// The names under which no local of a function is constant.
ghost use Rattle.std.specs.Prelude.{◌≡◌, ◌||◌, ℕ, List, IfOk, OnOk};
ghost use Rattle.c_tree.specs.Bare as bare;
ghost use Rattle.c_tree.specs.Lined.{function_of, stmt_of, stmts_of};
ghost use Rattle.c_names.specs.Tables.{in_scope};
ghost use Rattle.contexts.specs.Constants.{among, written, written_all};
ghost use Rattle.context_locals.specs.Writes.{int_texts, writes_in, AreIntNames, AreWritesOf};

use c_names::{Scope, enter, is_in_scope};
use c_tree::{Act, Cell, Function, Stmt};
use indexmap::IndexSet;
use std::alloc::{AllocError, Global};

/// Brings in the names that a statement assigns, reads into or takes a result into, at any depth.
/// The one error is want of memory.
#[cycle(written)]
fn add_written<'p>(names: &mut Scope<'p>, s: &'p Stmt) -> Result<(), AllocError>
    ensures { OnOk result ((q : List ℕ) → in_scope names.new q ≡ (in_scope names.old q || among (written (stmt_of s.now)) q)) }
{
    match &s.act {
        Act::Assign { target, .. } => enter(names, target.name.as_slice()),
        Act::Call {
            target: Some(target),
            ..
        } => enter(names, target.name.as_slice()),
        Act::Read { target } => enter(names, target.name.as_slice()),
        Act::If {
            then_arm,
            else_arm,
            ..
        } => {
            add_all_written(names, then_arm.as_slice())?;
            add_all_written(names, else_arm.as_slice())
        }
        Act::While { body, .. } => add_all_written(names, body.as_slice()),
        Act::For {
            first,
            step,
            body,
            ..
        } => {
            add_all_written(names, first.as_slice())?;
            add_all_written(names, step.as_slice())?;
            add_all_written(names, body.as_slice())
        }
        Act::TryLock { taken, busy, .. } => {
            add_all_written(names, taken.as_slice())?;
            add_all_written(names, busy.as_slice())
        }
        _ => Ok(()),
    }
}

/// The same of statements.
#[cycle(written)]
fn add_all_written<'p>(names: &mut Scope<'p>, ss: &'p [Stmt]) -> Result<(), AllocError>
    ensures { OnOk result ((q : List ℕ) → in_scope names.new q ≡ (in_scope names.old q || among (written_all (stmts_of ss.now)) q)) }
{
    for s in ss {
        add_written(names, s)?;
    }
    Ok(())
}

/// The names of ints. The one error is want of memory.
pub fn int_names<'p>(alloc: Global, ints: &'p [Cell]) -> Result<Scope<'p>, AllocError>
    ensures { IfOk result (λ names. (q : List ℕ) → in_scope names q ≡ among (int_texts ints.now) q) }
{
    let mut names = IndexSet::new(alloc);
    for c in ints {
        enter(&mut names, c.name.as_slice())?;
    }
    Ok(names)
}

/// The names under which no local of a function is constant: those that it writes into, and those
/// of ints.
#[derive(Drop)]
pub struct Writes<'a, 'p> {
    own: Scope<'p>,
    ints: &'a Scope<'p>,
}

impl<'a, 'p> Writes<'a, 'p> {
    /// The names of a function in a program with these ints. The one error is want of memory.
    pub fn new(
        alloc: Global,
        f: &'p Function,
        ints: &'a Scope<'p>,
    ) -> Result<Writes<'a, 'p>, AllocError>
        ensures { IfOk result (λ writes. (p : bare.Program) → AreIntNames p ints.now → AreWritesOf p (function_of f.now) writes) }
    {
        let mut own = IndexSet::new(alloc);
        add_all_written(&mut own, f.body.as_slice())?;
        Ok(Writes { own, ints })
    }

    /// Whether a name is one of them.
    pub fn has(&self, name: &[u8]) -> bool
        ensures { result ≡ writes_in self.now name.now }
    {
        is_in_scope(&self.own, name) || is_in_scope(self.ints, name)
    }
}
