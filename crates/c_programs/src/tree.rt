//! What is read, and how a program grows.

ghost use Rattle.std.specs.Prelude.{◌≡◌, IfOk};
ghost use Rattle.c_tree.specs.Lined.{program_of};
ghost use Rattle.c_grammar.specs.Programs as programs;
ghost use Rattle.c_expressions.specs.Gives.{tall_of};
ghost use Rattle.c_programs.specs.Gives.{defined_of};
ghost use Rattle.c_programs.specs.Parsers as spec;

use crate::token::Free;
use c_declarations::tree::{Capacities, Ints, Sort};
use c_expressions::tall::Tall;
use c_tree::{Function, Objects, Program, Slots};
use sqlite_items::Items;
use std::alloc::{AllocError, Global};

/// A function, and the threads that `main` declares in it.
#[derive(Debug, Drop)]
pub struct Defined {
    /// The function.
    pub function: Function,
    /// The threads.
    pub slots: Slots,
}

/// What was read so far.
#[derive(Debug, Drop)]
pub struct Reading {
    /// Which words have no definition.
    pub defined: Free,
    /// The program.
    pub program: Tall<Program>,
}

/// A program without anything, in a file that ends on this line.
pub fn empty_program(alloc: Global, end: u32) -> Tall<Program>
    ensures { tall_of program_of result ≡ programs.empty_program end }
{
    Tall {
        tree: Program {
            ints: Items::new(alloc),
            arrays: Items::new(alloc),
            mutexes: Items::new(alloc),
            conds: Items::new(alloc),
            threads: Items::new(alloc),
            monitors: Items::new(alloc),
            functions: Items::new(alloc),
            cap_len: 0,
            cap_line: 0,
            end_line: end,
        },
        levels: 0,
    }
}

/// With scalars and arrays.
pub fn with_ints(program: Tall<Program>, all: Ints) -> Result<Tall<Program>, AllocError>
    ensures { IfOk result (λ x. tall_of program_of x ≡ spec.with_ints (tall_of program_of program) all) }
{
    let mut program = program;
    program.tree.ints.append(all.cells)?;
    program.tree.arrays.append(all.arrays)?;
    Ok(program)
}

/// With mutexes or conditions.
pub fn with_objects(
    program: Tall<Program>,
    sort: Sort,
    all: Objects,
) -> Result<Tall<Program>, AllocError>
    ensures { IfOk result (λ x. tall_of program_of x ≡ spec.with_objects (tall_of program_of program) sort all) }
{
    let mut program = program;
    match sort {
        Sort::Mutex => program.tree.mutexes.append(all)?,
        Sort::Condition => program.tree.conds.append(all)?,
    }
    Ok(program)
}

/// With threads.
pub fn with_slots(program: Tall<Program>, all: Slots) -> Result<Tall<Program>, AllocError>
    ensures { IfOk result (λ x. tall_of program_of x ≡ programs.with_slots (tall_of program_of program) all) }
{
    let mut program = program;
    program.tree.threads.append(all)?;
    Ok(program)
}

/// With the capacities.
pub fn with_capacities(program: Tall<Program>, capacities: Capacities) -> Tall<Program>
    ensures { tall_of program_of result ≡ spec.with_capacities (tall_of program_of program) capacities }
{
    let mut program = program;
    program.tree.monitors = capacities.values;
    program.tree.cap_len = capacities.len;
    program.tree.cap_line = capacities.line;
    program
}

/// With a function.
#[tactic(auto, using(crate::proofs::Lists::functions_grow))]
pub fn with_function(
    program: Tall<Program>,
    more: Tall<Defined>,
) -> Result<Tall<Program>, AllocError>
    ensures { IfOk result (λ x. tall_of program_of x ≡ programs.with_function (tall_of program_of program) (tall_of defined_of more)) }
{
    let mut program = program;
    program.levels = program.levels.max(more.levels);
    let Defined { function, slots } = more.tree;
    program.tree.threads.append(slots)?;
    program.tree.functions.push(function)?;
    Ok(program)
}
