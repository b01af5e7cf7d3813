// What a program declares outside functions.

ghost use Rattle.std.specs.Prelude.{◌≡◌, ◌++◌, map, List, OnOk, IfOk, ◌<◌, ◌≤◌, ◌+◌, length};
ghost use Rattle.std.specs.List.{enumerate_from};
ghost use Rattle.c_tree.specs.Lined.{function_of, program_of};
ghost use Rattle.c_rules.specs.Declarations as spec;
ghost use Rattle.c_names.specs.Shown.{thing_of, shown, all_shown};

use c_tree::{Array, Cell, Function, Object, Program, Slot};
use std::alloc::{AllocError, Global};

/// What a name stands for.
#[derive(Clone, Copy, Debug)]
pub enum Thing<'p> {
    /// An int outside functions.
    Scalar,
    /// An array of ints.
    Array,
    /// A mutex, or an array of this length.
    Mutex(Option<u32>),
    /// A condition, or an array of this length.
    Condition(Option<u32>),
    /// A thread, or an array of this length.
    Thread(Option<u32>),
    /// The function at this place, counted from 0.
    Function(u32, &'p Function),
    /// A local, or a parameter that is an int.
    Local,
    /// The parameter of a thread's start function.
    Argument,
}

/// A name that is declared outside functions.
#[derive(Clone, Copy, Debug)]
pub struct Declaration<'p> {
    /// The name.
    pub name: &'p [u8],
    /// What it stands for.
    pub thing: Thing<'p>,
    /// Where it is declared.
    pub line: u32,
}

fn push_cells<'p>(out: &mut Vec<Declaration<'p>>, cells: &'p [Cell]) -> Result<(), AllocError>
    ensures { OnOk result (all_shown out.new.items ≡ all_shown out.old.items ++ map spec.of_cell cells.now) }
{
    for c in cells {
        out.push(Declaration {
            name: c.name.as_slice(),
            thing: Thing::Scalar,
            line: c.line,
        })?;
    }
    Ok(())
}

fn push_arrays<'p>(out: &mut Vec<Declaration<'p>>, arrays: &'p [Array]) -> Result<(), AllocError>
    ensures { OnOk result (all_shown out.new.items ≡ all_shown out.old.items ++ map spec.of_array arrays.now) }
{
    for a in arrays {
        out.push(Declaration {
            name: a.name.as_slice(),
            thing: Thing::Array,
            line: a.line,
        })?;
    }
    Ok(())
}

fn push_mutexes<'p>(out: &mut Vec<Declaration<'p>>, mutexes: &'p [Object]) -> Result<(), AllocError>
    ensures { OnOk result (all_shown out.new.items ≡ all_shown out.old.items ++ map spec.of_mutex mutexes.now) }
{
    for m in mutexes {
        out.push(Declaration {
            name: m.name.as_slice(),
            thing: Thing::Mutex(m.len),
            line: m.line,
        })?;
    }
    Ok(())
}

fn push_conditions<'p>(
    out: &mut Vec<Declaration<'p>>,
    conditions: &'p [Object],
) -> Result<(), AllocError>
    ensures { OnOk result (all_shown out.new.items ≡ all_shown out.old.items ++ map spec.of_condition conditions.now) }
{
    for c in conditions {
        out.push(Declaration {
            name: c.name.as_slice(),
            thing: Thing::Condition(c.len),
            line: c.line,
        })?;
    }
    Ok(())
}

fn push_slots<'p>(out: &mut Vec<Declaration<'p>>, slots: &'p [Slot]) -> Result<(), AllocError>
    ensures { OnOk result (all_shown out.new.items ≡ all_shown out.old.items ++ map spec.of_slot slots.now) }
{
    for t in slots {
        out.push(Declaration {
            name: t.name.as_slice(),
            thing: Thing::Thread(t.len),
            line: t.line,
        })?;
    }
    Ok(())
}

fn push_functions<'p>(
    out: &mut Vec<Declaration<'p>>,
    functions: &'p [Function],
) -> Result<(), AllocError>
    requires { length functions.now < 1000000 }
    ensures { OnOk result (all_shown out.new.items ≡ all_shown out.old.items ++ map spec.of_function (enumerate_from 0 (map function_of functions.now))) }
{
    let mut place = 0;
    for f in functions {
        out.push(Declaration {
            name: f.name.as_slice(),
            thing: Thing::Function(place, f),
            line: f.line,
        })?;
        place += 1;
    }
    Ok(())
}

/// What a program declares outside functions, in the order of the tree. The one error is want of
/// memory.
pub fn declarations<'p>(alloc: Global, p: &'p Program) -> Result<Vec<Declaration<'p>>, AllocError>
    requires { length p.now.functions < 1000000 }
    ensures { IfOk result (λ ds. all_shown ds.items ≡ spec.outer (program_of p.now)) }
{
    let mut all = Vec::new(alloc);
    push_cells(&mut all, p.ints.as_slice())?;
    push_arrays(&mut all, p.arrays.as_slice())?;
    push_mutexes(&mut all, p.mutexes.as_slice())?;
    push_conditions(&mut all, p.conds.as_slice())?;
    push_slots(&mut all, p.threads.as_slice())?;
    push_functions(&mut all, p.functions.as_slice())?;
    Ok(all)
}
