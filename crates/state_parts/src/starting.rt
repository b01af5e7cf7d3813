// The state in which a program starts.
ghost use Rattle.std.specs.Prelude.{◌≡◌, ◌++◌, ◌-◌, ℕ, [], ◌∷◌, map, flat_map, replicate, length, slice_get, Some, None, IfOk, OnOk};
ghost use Rattle.std.specs.FinMap as finite;
ghost use Rattle.c_tree.specs.Numbering.{main_body, creations};
ghost use Rattle.c_tree.specs.declared.program.Program as tree;
ghost use Rattle.c_tree.specs.declared.program.Function as function;
ghost use Rattle.c_frames.specs.Names.{shown_function, NamesOf};
ghost use Rattle.c_frames.specs.declared.names.LocalNames as names;
ghost use Rattle.c_meaning.specs.Shown.{shown};
ghost use Rattle.c_meaning.specs.State as run;
ghost use Rattle.c_meaning.specs.State.{first_cells};
ghost use Rattle.state_parts.specs.Accepted.{Accepted};
ghost use Rattle.state_parts.specs.Valid.{AreTablesOf, AreThreadsIn};
ghost use Rattle.state_parts.specs.Threads.{status_of};
ghost use Rattle.state_parts.specs.Small.{AreSmall};
ghost use Rattle.state_parts.specs.Starting.{bare_values};
ghost use Rattle.state_parts.specs.declared.tables.Tables as tables;

use crate::new_frames::make_frame;
use crate::tables::Tables;
use crate::threads::{Doing, Thread};
use c_frames::{LocalNames, local_names};
use c_places::Numbers;
use c_tree::{Array, Cell, Function, Program};
use std::alloc::{AllocError, Global};

/// The first values of ints.
fn int_values(alloc: Global, ints: &[Cell]) -> Result<Vec<i32>, AllocError>
    ensures { IfOk result (λ v. v.items ≡ map (λ c. c.value) ints.now) }
{
    let mut all = Vec::new(alloc);
    for c in ints {
        all.push(c.value)?;
    }
    Ok(all)
}

/// The first values of an array's members, at the end of others.
fn push_array(alloc: Global, all: &mut Vec<i32>, a: &Array) -> Result<(), AllocError>
    ensures { OnOk result (all.new.items ≡ all.old.items ++ bare_values a.now) }
{
    let given = a.values.as_slice();
    let zeros = vec![in alloc; 0i32; (a.len as usize).saturating_sub(given.len())]?;
    all.extend_from_slice(given)?;
    all.extend_from_slice(zeros.as_slice())
}

/// The first values of arrays' members, at the end of others.
fn push_arrays(alloc: Global, all: &mut Vec<i32>, arrays: &[Array]) -> Result<(), AllocError>
    ensures { OnOk result (all.new.items ≡ all.old.items ++ flat_map bare_values arrays.now) }
{
    for a in arrays {
        push_array(alloc, all, a)?;
    }
    Ok(())
}

/// The first values of all cells.
pub fn first_cells(alloc: Global, p: &Program) -> Result<Vec<i32>, AllocError>
    ensures { IfOk result (λ v. v.items ≡ first_cells (shown p.now)) }
{
    let mut all = int_values(alloc, p.ints.as_slice())?;
    push_arrays(alloc, &mut all, p.arrays.as_slice())?;
    Ok(all)
}

/// A row of tokens for each monitor, of which none is held.
pub fn first_rows(
    alloc: Global,
    monitors: &[u32],
    threads: usize,
) -> Result<Vec<Vec<u32>>, AllocError>
    ensures { IfOk result (λ v. map (λ row. row.items) v.items ≡ map (λ capacity. replicate threads 0) monitors.now) }
{
    let mut all = Vec::new(alloc);
    for _capacity in monitors {
        all.push(vec![in alloc; 0u32; threads]?)?;
    }
    Ok(all)
}

/// The names of each function's locals.
fn all_names(alloc: Global, functions: &[Function]) -> Result<Vec<LocalNames>, AllocError>
    ensures each { IfOk result (λ v. length v.items ≡ length functions.now) }
    ensures names { IfOk result (λ v. (k : ℕ) (f : function.Function) (names : names.LocalNames) → slice_get functions.now k ≡ Some f → slice_get v.items k ≡ Some names
        → NamesOf (shown_function f) names) }
{
    let mut all = Vec::new(alloc);
    for f in functions {
        all.push(local_names(alloc, f)?)?;
    }
    Ok(all)
}

/// Threads that haven't begun, at the end of others.
fn push_threads(alloc: Global, threads: &mut Vec<Thread>, n: usize) -> Result<(), AllocError>
    ensures are { OnOk result ((p : tree.Program) (tables : tables.Tables) → map (status_of p tables) threads.new.items ≡ map (status_of p tables) threads.old.items ++ replicate n run.NotBegun) }
    ensures valid { OnOk result ((p : tree.Program) (tables : tables.Tables) → AreThreadsIn p tables threads.old.items → AreThreadsIn p tables threads.new.items) }
{
    for _thread in 0..n {
        threads.push(Thread {
            doing: Doing::NotBegun,
            frames: Vec::new(alloc),
        })?;
    }
    Ok(())
}

/// The owners of mutexes, of which none is owned.
pub fn no_owners(alloc: Global, n: usize) -> Result<Vec<Option<u32>>, AllocError>
    ensures { IfOk result (λ v. v.items ≡ replicate n None) }
{
    vec![in alloc; None; n]
}

impl Tables {
    /// The tables of a program. The one error is want of memory.
    pub fn new(alloc: Global, p: &Program) -> Result<Tables, AllocError>
        requires accepted { Accepted p.now }
        requires small { AreSmall p.now }
        ensures { IfOk result (AreTablesOf p.now) }
    {
        Ok(Tables {
            numbers: Numbers::new(alloc, p)?,
            names: all_names(alloc, p.functions.as_slice())?,
        })
    }
}

/// The threads as they start: main alone runs. The one error is want of memory.
pub fn first_threads(alloc: Global, p: &Program, tables: &Tables) -> Result<Vec<Thread>, AllocError>
    requires accepted { Accepted p.now }
    requires tables { AreTablesOf p.now tables.now }
    ensures are { IfOk result (λ threads. map (status_of p.now tables.now) threads.items
        ≡ run.Running (run.frame finite.empty (main_body (shown p.now)) ∷ []) ∷ replicate (length (creations (shown p.now))) run.NotBegun) }
    ensures valid { IfOk result (λ threads. AreThreadsIn p.now tables.now threads.items) }
{
    let Some(frame) = make_frame(alloc, p, tables, b"main", &[])? else {
        unreachable!();
    };
    let mut frames = Vec::new(alloc);
    frames.push(frame)?;
    let mut threads = Vec::new(alloc);
    threads.push(Thread {
        doing: Doing::Running,
        frames,
    })?;
    push_threads(
        alloc,
        &mut threads,
        tables.numbers.threads().saturating_sub(1),
    )?;
    Ok(threads)
}
