// What is declared outside functions.

ghost use Rattle.std.specs.Prelude.{◌≡◌, ◌==◌, map, flat_map, OnOk};
ghost use Rattle.std.specs.List.{list_any};
ghost use Rattle.c_tree.specs.Lined.{function_of, program_of};
ghost use Rattle.c_rules.specs.Naming as naming;
ghost use Rattle.c_rules.specs.Sites as sites;
ghost use Rattle.c_names.specs.Shown.{thing_of, shown, all_shown};
ghost use Rattle.c_names.specs.Tables.{meant};
ghost use Rattle.c_acts.specs.First.{noted_all};
ghost use Rattle.c_check.specs.Outer as spec;

use crate::functions::is_main;
use c_acts::{Break, note, note_if};
use c_names::{Declaration, Names, Thing, declaration_of, declare, is_function_name, is_reserved};
use c_rules::Rule;
use c_tree::{Array, Function, Mode, Object, Program, Slot};
use std::alloc::AllocError;

/// Whether a name can't be declared as this.
fn is_taken(mode: Mode, d: &Declaration) -> bool
    ensures { result ≡ naming.is_taken_for mode d.now.name.now (thing_of d.now.thing) }
{
    match &d.thing {
        Thing::Function(_, _) => !is_function_name(mode, d.name),
        Thing::Scalar
        | Thing::Array
        | Thing::Mutex(_)
        | Thing::Condition(_)
        | Thing::Thread(_)
        | Thing::Local
        | Thing::Argument => is_reserved(d.name),
    }
}

/// Looks at a declaration, where these are known.
fn check_declaration(names: &Names, mode: Mode, first: &mut Option<Break>, d: &Declaration)
    ensures { first.new ≡ noted_all first.old (spec.declaration_breaks mode (meant names.now) (shown d.now)) }
{
    note_if(first, is_taken(mode, d), Rule::Reserved, d.line);
    if let Some(before) = declaration_of(names, d.name) {
        note(first, Rule::Twice, before.line.max(d.line));
    }
}

/// Looks at declarations, and makes them known. The one error is want of memory.
pub fn check_declarations<'p>(
    names: &mut Names<'p>,
    mode: Mode,
    first: &mut Option<Break>,
    ds: &[Declaration<'p>],
) -> Result<(), AllocError>
    ensures breaks { OnOk result (first.new ≡ noted_all first.old (spec.outer_breaks mode (meant names.old) (all_shown ds.now))) }
    ensures known { OnOk result (meant names.new ≡ spec.all_joined (meant names.old) (all_shown ds.now)) }
{
    for d in ds {
        check_declaration(names, mode, first, d);
        declare(names, *d)?;
    }
    Ok(())
}

/// Looks at the lengths and values of arrays.
fn check_arrays(first: &mut Option<Break>, arrays: &[Array])
    ensures { first.new ≡ noted_all first.old (flat_map spec.array_breaks arrays.now) }
{
    for a in arrays {
        note_if(
            first,
            a.values.len() > a.len as usize,
            Rule::WrongCount,
            a.line,
        );
        note_if(first, a.len == 0, Rule::IndexRange, a.line);
    }
}

/// Looks at the lengths and initialisers of mutexes or conditions.
fn check_objects(first: &mut Option<Break>, objects: &[Object])
    ensures { first.new ≡ noted_all first.old (flat_map spec.object_breaks objects.now) }
{
    for o in objects {
        let len = o.len.unwrap_or(1);
        note_if(first, o.ready && o.given != len, Rule::WrongCount, o.line);
        note_if(first, len == 0, Rule::IndexRange, o.line);
    }
}

/// Looks at the lengths of arrays of threads.
fn check_slots(first: &mut Option<Break>, slots: &[Slot])
    ensures { first.new ≡ noted_all first.old (flat_map spec.slot_breaks slots.now) }
{
    for t in slots {
        note_if(first, t.len.unwrap_or(1) == 0, Rule::IndexRange, t.line);
    }
}

/// Looks at the lengths of the names of functions.
fn check_long_names(mode: Mode, first: &mut Option<Break>, functions: &[Function])
    ensures { first.new ≡ noted_all first.old (flat_map (spec.length_breaks mode) (map function_of functions.now)) }
{
    for f in functions {
        let long = matches!(mode, Mode::Source) && f.name.len() > 56;
        note_if(first, long, Rule::LongName, f.line);
    }
}

/// Whether one of these functions is main.
fn has_main(functions: &[Function]) -> bool
    ensures { result ≡ list_any sites.is_main (map function_of functions.now) }
{
    functions.iter().any(|f| is_main(f))
}

/// Whether a capacity is 0.
fn has_zero(capacities: &[u32]) -> bool
    ensures { result ≡ list_any (λ capacity. capacity == 0) capacities.now }
{
    capacities.iter().any(|capacity| *capacity == 0)
}

/// Looks at the capacities, where there are any.
fn check_capacities(mode: Mode, first: &mut Option<Break>, p: &Program)
    ensures { first.new ≡ noted_all first.old (spec.capacity_breaks mode (program_of p.now)) }
{
    let count = p.monitors.len();
    if count > 0 || p.cap_len > 0 {
        note_if(
            first,
            matches!(mode, Mode::Source),
            Rule::Reserved,
            p.cap_line,
        );
        note_if(
            first,
            p.cap_len as usize != count,
            Rule::WrongCount,
            p.cap_line,
        );
        let empty = p.cap_len == 0 || has_zero(p.monitors.as_slice());
        note_if(first, empty, Rule::IndexRange, p.cap_line);
    }
}

/// Looks at what a program declares beside names.
pub fn check_parts(mode: Mode, first: &mut Option<Break>, p: &Program)
    ensures { first.new ≡ noted_all first.old (spec.part_breaks mode (program_of p.now)) }
{
    check_arrays(first, p.arrays.as_slice());
    check_objects(first, p.mutexes.as_slice());
    check_objects(first, p.conds.as_slice());
    check_slots(first, p.threads.as_slice());
    check_long_names(mode, first, p.functions.as_slice());
    check_capacities(mode, first, p);
    note_if(
        first,
        !has_main(p.functions.as_slice()),
        Rule::NoMain,
        p.end_line,
    );
}
