// The first break of a whole program.

ghost use Rattle.std.specs.Prelude.{◌≡◌, ◌<◌, length, None, IfOk, MatchOption};
ghost use Rattle.c_tree.specs.Lined.{program_of};
ghost use Rattle.c_rules.specs.Formed.{KeepsRules, FirstBreak};
ghost use Rattle.c_acts.specs.First.{noted_all};
ghost use Rattle.c_check.specs.Breaks as spec;

use crate::functions::check_functions;
use crate::outer::{check_declarations, check_parts};
use c_acts::Break;
use c_names::declarations;
use c_tree::{Mode, Program};
use indexmap::IndexMap;
use std::alloc::{AllocError, Global};

/// What is noted first of a program. The one error is want of memory.
fn first_noted(alloc: Global, p: &Program, mode: Mode) -> Result<Option<Break>, AllocError>
    requires { length p.now.functions < 1000000 }
    ensures { IfOk result (λ first. first ≡ noted_all None (spec.all_breaks (program_of p.now) mode)) }
{
    let mut first = None;
    let mut names = IndexMap::new(alloc);
    let ds = declarations(alloc, p)?;
    check_declarations(&mut names, mode, &mut first, ds.as_slice())?;
    check_parts(mode, &mut first, p);
    let functions = p.functions.as_slice();
    check_functions(alloc, &names, mode, p.monitors.len(), &mut first, functions)?;
    Ok(first)
}

/// The first of the rules that a program breaks, at its line. The one error is want of memory.
pub fn first_break(alloc: Global, p: &Program, mode: Mode) -> Result<Option<Break>, AllocError>
    requires { length p.now.functions < 1000000 }
    ensures { IfOk result (λ first. MatchOption first (KeepsRules (program_of p.now) mode) (λ b. FirstBreak (program_of p.now) mode b.rule b.line)) }
{
    let first = first_noted(alloc, p, mode)?;
    Ok(first)
}
