// Names: which ones are kept, and sets of them.
ghost use Rattle.std.specs.Prelude.{◌≡◌, [], ◌∷◌, ℕ, List, IfOk, OnOk, IfSome, map, is_some, length, take, reverse, ◌≤◌, codes, ◌&&◌, not, ◌++◌};
ghost use Rattle.std.specs.List.{list_all};
ghost use Rattle.c_rules.specs.Names.{mentions, is_reserved};
ghost use Rattle.first_form.specs.FirstForm.{all_differ, outer_names};
ghost use Rattle.first_form.specs.Shown.{shown};
ghost use Rattle.first_form.specs.Sets.{texts, knows, Knows};

use c_tree::{Cell, Function, Name, Object, Program, Slot};
use std::alloc::{AllocError, Global};
use std::collections::HashSet;

/// Names that are looked up.
pub type NameSet<'a> = HashSet<&'a [u8]>;

/// What has a name.
pub trait Named {
    ghost name_of: { Self → List ℕ };

    /// Its name.
    fn name(&self) -> &[u8]
        ensures { result.now ≡ Self.name_of self.now };
}

impl Named for Cell {
    ghost name_of = { λ c. c.name };

    fn name(&self) -> &[u8] {
        self.name.as_slice()
    }
}

impl Named for Object {
    ghost name_of = { λ o. o.name };

    fn name(&self) -> &[u8] {
        self.name.as_slice()
    }
}

impl Named for Slot {
    ghost name_of = { λ s. s.name };

    fn name(&self) -> &[u8] {
        self.name.as_slice()
    }
}

impl Named for Function {
    ghost name_of = { λ f. f.name };

    fn name(&self) -> &[u8] {
        self.name.as_slice()
    }
}

/// Puts the names of items, in their order, behind others. The one error is want of memory.
pub fn push_names<'a, T: Named>(names: &mut Vec<&'a [u8]>, items: &'a [T]) -> Result<(), AllocError>
    ensures { OnOk result
        (texts names.new.items ≡ texts names.old.items ++ map T.name_of items.now) }
{
    for item in items {
        names.push(item.name())?;
    }
    Ok(())
}

/// Whether a set has a name.
pub fn is_known(set: &NameSet, name: &[u8]) -> bool
    ensures { result ≡ knows set.now name.now }
{
    set.contains(name)
}

/// The set of the names of items. The one error is want of memory.
pub fn name_set<'a, T: Named>(alloc: Global, items: &'a [T]) -> Result<NameSet<'a>, AllocError>
    ensures { IfOk result (λ set. Knows set (map T.name_of items.now)) }
{
    let mut set = HashSet::new(alloc);
    for item in items {
        set.insert(item.name())?;
    }
    Ok(set)
}

/// The set of some names, and `None` exactly where two of them are equal. The one error is want of
/// memory.
pub fn distinct_names<'a>(
    alloc: Global,
    names: &[&'a [u8]],
) -> Result<Option<NameSet<'a>>, AllocError>
    ensures known { IfOk result (λ set. IfSome set (λ s. Knows s (texts names.now))) }
    ensures differ { IfOk result (λ set. is_some set ≡ all_differ (texts names.now)) }
{
    let mut set = HashSet::new(alloc);
    for name in names {
        if !set.insert(*name)? {
            return Ok(None);
        }
    }
    Ok(Some(set))
}

/// What a program declares outside functions, in the order of ints, mutexes, threads and functions.
/// The one error is want of memory.
pub fn outer_names<'a>(alloc: Global, p: &'a Program) -> Result<Vec<&'a [u8]>, AllocError>
    ensures { IfOk result (λ names. texts names.items ≡ outer_names (shown p.now)) }
{
    let mut names = Vec::new(alloc);
    push_names(&mut names, p.ints.as_slice())?;
    push_names(&mut names, p.mutexes.as_slice())?;
    push_names(&mut names, p.threads.as_slice())?;
    push_names(&mut names, p.functions.as_slice())?;
    Ok(names)
}
