// Whole functions.

ghost use Rattle.std.specs.Prelude.{◌≡◌, ◌<◌, length, map, flat_map, OnOk};
ghost use Rattle.std.specs.List.{enumerate_from};
ghost use Rattle.c_tree.specs.Lined.{function_of};
ghost use Rattle.c_rules.specs.Sites as sites;
ghost use Rattle.c_names.specs.Tables.{in_scope, meant};
ghost use Rattle.c_acts.specs.First.{noted_all};
ghost use Rattle.c_acts.specs.Uses.{around};
ghost use Rattle.c_check.specs.Walk.{with_names};
ghost use Rattle.c_check.specs.Functions as spec;

use crate::own::check_own;
use c_acts::{Break, Inside, check_local};
use c_names::{Names, Scope, enter};
use c_tree::{Function, Mode, Name};
use indexmap::IndexSet;
use std::alloc::{AllocError, Global};

/// Looks at parameters, which come into scope. The one error is want of memory.
fn check_parameters<'p>(
    at: &Inside<'_, 'p>,
    scope: &mut Scope<'p>,
    first: &mut Option<Break>,
    line: u32,
    names: &'p [Name],
) -> Result<(), AllocError>
    ensures breaks { OnOk result (first.new ≡ noted_all first.old (spec.parameter_breaks (around at.now) line (in_scope scope.old) names.now)) }
    ensures scoped { OnOk result (in_scope scope.new ≡ with_names names.now (in_scope scope.old)) }
{
    for name in names {
        check_local(at, scope, first, line, name.as_slice());
        enter(scope, name.as_slice())?;
    }
    Ok(())
}

/// Whether a function is main.
pub fn is_main(f: &Function) -> bool
    ensures { result ≡ sites.is_main (function_of f.now) }
{
    f.name.as_slice() == b"main".as_slice()
}

/// Looks at a function. The one error is want of memory.
fn check_function(alloc: Global, at: &Inside, first: &mut Option<Break>) -> Result<(), AllocError>
    ensures { OnOk result (first.new ≡ noted_all first.old (spec.function_breaks (around at.now))) }
{
    let f = at.function;
    let mut scope = IndexSet::new(alloc);
    check_parameters(at, &mut scope, first, f.line, f.params.as_slice())?;
    check_own(alloc, at, &mut scope, first, is_main(f), f.body.as_slice())?;
    Ok(())
}

/// Looks at functions. The one error is want of memory.
pub fn check_functions<'p>(
    alloc: Global,
    names: &Names<'p>,
    mode: Mode,
    monitors: usize,
    first: &mut Option<Break>,
    functions: &'p [Function],
) -> Result<(), AllocError>
    requires { length functions.now < 1000000 }
    ensures { OnOk result (first.new ≡ noted_all first.old (spec.functions_breaks (meant names.now) mode monitors (enumerate_from 0 (map function_of functions.now)))) }
{
    let mut place = 0;
    for function in functions {
        let at = Inside {
            names,
            mode,
            monitors,
            function,
            place,
        };
        check_function(alloc, &at, first)?;
        place += 1;
    }
    Ok(())
}
