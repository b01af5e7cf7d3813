// The names of a function's parameters and locals.
ghost use Rattle.std.specs.Prelude.{◌≡◌, ◌<◌, ◌||◌, ℕ, List, length, map, position, bytes_eq, option_map, IfOk, OnOk, IfSome};
ghost use Rattle.c_frames.specs.Names.{shown_function, target, is_target, is_set, is_set_inside, is_among, key_texts, names_in, NamesOf};
ghost use Rattle.c_meaning.specs.Shown.{shown_stmt, shown_body};

use crate::heights::height;
use c_tree::{Act, Function, Name, Stmt};
use indexmap::IndexSet;
use std::alloc::{AllocError, Global};

/// Names, each once.
type Names = IndexSet<Vec<u8>>;

/// The names of a function's parameters and of what its statements give values, each once.
#[derive(Debug, Drop)]
pub struct LocalNames {
    names: Names,
    /// How deep the function's lists of statements stand inside one another.
    height: usize,
}

impl LocalNames {
    /// How many names there are.
    pub(crate) fn len(&self) -> usize
        ensures { result ≡ length (names_in self.now) }
    {
        self.names.len()
    }

    /// The place of a name among them, counted from 0.
    pub(crate) fn place(&self, name: &[u8]) -> Option<usize>
        ensures place { result ≡ position (bytes_eq name.now) (names_in self.now) }
        ensures within { IfSome result (λ k. k < length (names_in self.now)) }
    {
        self.names.get_index_of(name)
    }

    /// How deep the function's lists of statements stand inside one another.
    pub(crate) fn height(&self) -> usize
        ensures { result ≡ self.now.height }
    {
        self.height
    }
}

/// Makes a name one of the names. The one error is want of memory.
fn add(alloc: Global, names: &mut Names, name: &[u8]) -> Result<(), AllocError>
    ensures { OnOk result ((q : List ℕ) → is_among (key_texts names.new) q ≡ (is_among (key_texts names.old) q || bytes_eq q name.now)) }
{
    if names.contains(name) {
        return Ok(());
    }
    names.insert(Vec::from_slice(alloc, name)?)?;
    Ok(())
}

/// Makes each of a function's parameters one of the names. The one error is want of memory.
fn add_params(alloc: Global, names: &mut Names, params: &[Name]) -> Result<(), AllocError>
    ensures { OnOk result ((q : List ℕ) → is_among (key_texts names.new) q ≡ (is_among (key_texts names.old) q || is_among params.now q)) }
{
    for name in params {
        add(alloc, names, name.as_slice())?;
    }
    Ok(())
}

/// The name of what a statement itself gives a value.
fn target(s: &Stmt) -> Option<&[u8]>
    ensures { option_map (λ name. name.now) result ≡ target (shown_stmt s.now) }
{
    match &s.act {
        Act::Declare { name, .. } => Some(name.as_slice()),
        Act::Assign { target, .. } => Some(target.name.as_slice()),
        Act::Call {
            target: Some(target),
            ..
        } => Some(target.name.as_slice()),
        Act::Read { target } => Some(target.name.as_slice()),
        _ => None,
    }
}

/// Makes what a statement itself gives a value one of the names. The one error is want of memory.
fn add_target(alloc: Global, names: &mut Names, s: &Stmt) -> Result<(), AllocError>
    ensures { OnOk result ((q : List ℕ) → is_among (key_texts names.new) q ≡ (is_among (key_texts names.old) q || is_target q (shown_stmt s.now))) }
{
    match target(s) {
        Some(name) => add(alloc, names, name),
        None => Ok(()),
    }
}

/// Makes what statements give values, at any depth, the names beside those that were there. The one error is want of
/// memory.
#[cycle(collect)]
fn add_targets(alloc: Global, names: &mut Names, ss: &[Stmt]) -> Result<(), AllocError>
    ensures { OnOk result ((q : List ℕ) → is_among (key_texts names.new) q ≡ (is_among (key_texts names.old) q || is_set q (shown_body ss.now))) }
{
    for s in ss {
        add_target(alloc, names, s)?;
        add_inside(alloc, names, s)?;
    }
    Ok(())
}

/// The same of the statements inside a statement.
#[cycle(collect)]
fn add_inside(alloc: Global, names: &mut Names, s: &Stmt) -> Result<(), AllocError>
    ensures { OnOk result ((q : List ℕ) → is_among (key_texts names.new) q ≡ (is_among (key_texts names.old) q || is_set_inside q (shown_stmt s.now))) }
{
    match &s.act {
        Act::If {
            then_arm,
            else_arm,
            ..
        } => {
            add_targets(alloc, names, then_arm.as_slice())?;
            add_targets(alloc, names, else_arm.as_slice())
        }
        Act::While { body, .. } => add_targets(alloc, names, body.as_slice()),
        Act::For {
            first,
            step,
            body,
            ..
        } => {
            add_targets(alloc, names, first.as_slice())?;
            add_targets(alloc, names, step.as_slice())?;
            add_targets(alloc, names, body.as_slice())
        }
        Act::TryLock { taken, busy, .. } => {
            add_targets(alloc, names, taken.as_slice())?;
            add_targets(alloc, names, busy.as_slice())
        }
        _ => Ok(()),
    }
}

/// The names of a function's parameters and of what its statements give values. The one error is want of memory.
pub fn local_names(alloc: Global, f: &Function) -> Result<LocalNames, AllocError>
    ensures { IfOk result (λ names. NamesOf (shown_function f.now) names) }
{
    let mut names = IndexSet::new(alloc);
    add_params(alloc, &mut names, f.params.as_slice())?;
    add_targets(alloc, &mut names, f.body.as_slice())?;
    Ok(LocalNames {
        names,
        height: height(f.body.as_slice())?,
    })
}
