// Declarations and functions of the first form.
ghost use Rattle.std.specs.Prelude.{◌≡◌, ◌&&◌, [], IfOk, length, map, nat_le, not};
ghost use Rattle.std.specs.List.{list_all};
ghost use Rattle.c_tree.specs.Lined.{bare_cell, bare_object, bare_slot, bare_function, function_of};
ghost use Rattle.c_rules.specs.Names.{is_reserved};
ghost use Rattle.first_form.specs.FirstForm.{is_zero_int, is_ready_mutex, is_thread_array, has_first_declarations, has_good_names, is_main_kind, is_thread, is_main, has_first_functions, is_balanced};
ghost use Rattle.first_form.specs.Shown.{shown, shown_body};
ghost use Rattle.first_form.specs.Sets.{texts, knows};

use crate::locks::is_balanced;
use crate::main_body::{has_good_threads, is_main_body, is_thread_kind};
use crate::names::{NameSet, distinct_names, is_known, outer_names};
use crate::scope::Scope;
use c_names::is_reserved;
use c_tree::{Cell, Function, Kind, Object, Program, Slot};
use std::alloc::{AllocError, Global};

fn are_zero(ints: &[Cell]) -> bool
    ensures { result ≡ list_all is_zero_int (map bare_cell ints.now) }
{
    ints.iter().all(|c| c.value == 0)
}

fn is_ready(m: &Object) -> bool
    ensures { result ≡ is_ready_mutex (bare_object m.now) }
{
    m.len.is_none() && m.ready && m.given == 1
}

fn are_ready(mutexes: &[Object]) -> bool
    ensures { result ≡ list_all is_ready_mutex (map bare_object mutexes.now) }
{
    mutexes.iter().all(|m| is_ready(m))
}

/// Whether there is at most one array of threads, with at least one member.
fn is_thread_array(slots: &[Slot]) -> bool
    ensures { result ≡ is_thread_array (map bare_slot slots.now) }
{
    match slots {
        [] => true,
        [slot] => slot.len.unwrap_or(0) > 0,
        _ => false,
    }
}

/// Whether a program declares ints that begin with 0, at most 48 mutexes and at most one array of
/// threads.
pub fn has_first_declarations(p: &Program) -> bool
    ensures { result ≡ has_first_declarations (shown p.now) }
{
    are_zero(p.ints.as_slice())
        && p.arrays.len() == 0
        && are_ready(p.mutexes.as_slice())
        && p.mutexes.len() <= 48
        && p.conds.len() == 0
        && is_thread_array(p.threads.as_slice())
        && p.monitors.len() == 0
        && p.cap_len == 0
}

fn are_free(names: &[&[u8]]) -> bool
    ensures { result ≡ list_all (λ name. not (is_reserved name)) (texts names.now) }
{
    names.iter().all(|name| !is_reserved(name))
}

/// Whether a function's name has at most 56 characters, and its parameters have names that are
/// neither kept nor among the outer ones.
fn has_good_head(outer: &NameSet, f: &Function) -> bool
    ensures { result ≡ (nat_le (length f.now.name) 56 && list_all (λ name. not (knows outer.now name) && not (is_reserved name)) f.now.params) }
{
    f.name.len() <= 56
        && f.params.as_slice().iter().all(|name| !is_known(outer, name.as_slice())
            && !is_reserved(name.as_slice()))
}

fn have_good_heads(outer: &NameSet, functions: &[Function]) -> bool
    ensures { result ≡ list_all (λ f. nat_le (length f.name) 56 && list_all (λ name. not (knows outer.now name) && not (is_reserved name)) f.params) functions.now }
{
    functions.iter().all(|f| has_good_head(outer, f))
}

/// Whether the outer names aren't kept, and the functions have good heads.
fn are_good(names: &[&[u8]], outer: &NameSet, functions: &[Function]) -> bool
    ensures { result ≡ (list_all (λ name. not (is_reserved name)) (texts names.now) && list_all (λ f. nat_le (length f.name) 56 && list_all (λ name. not (knows outer.now name) && not (is_reserved name)) f.params) functions.now) }
{
    are_free(names) && have_good_heads(outer, functions)
}

/// Whether the outer names differ, no parameter has one of them, none of them is kept, and no
/// function's name has more than 56 characters. The one error is want of memory.
pub fn has_good_names(alloc: Global, p: &Program) -> Result<bool, AllocError>
    ensures { IfOk result (λ b. b ≡ has_good_names (shown p.now)) }
{
    let names = outer_names(alloc, p)?;
    match distinct_names(alloc, &names)? {
        Some(outer) => Ok(are_good(&names, &outer, p.functions.as_slice())),
        None => Ok(false),
    }
}

fn is_thread(scope: &Scope, f: &Function) -> bool
    ensures { result ≡ is_thread (shown scope.now.program.now) (bare_function (function_of f.now)) }
{
    is_thread_kind(f.kind) && f.params.len() == 1 && scope.is_thread_body(f.body.as_slice())
}

fn is_main_kind(kind: Kind) -> bool
    ensures { result ≡ is_main_kind kind }
{
    matches!(kind, Kind::Main)
}

/// Whether a function is main, with a body of the first form. The one error is want of memory. The number of its
/// creates is asked first, so at most 31 of them are looked up among the functions.
fn is_main(alloc: Global, p: &Program, f: &Function) -> Result<bool, AllocError>
    ensures { IfOk result (λ b. b ≡ is_main (shown p.now) (bare_function (function_of f.now))) }
{
    let is_headed = is_main_kind(f.kind)
        && f.name.as_slice() == b"main".as_slice()
        && f.params.len() == 0;
    if !is_headed {
        return Ok(false);
    }
    Ok(has_good_threads(alloc, f.body.as_slice())? && is_main_body(p, f.body.as_slice()))
}

/// Whether functions are those of threads, and last main. The one error is want of memory.
pub fn has_first_functions(
    alloc: Global,
    scope: &Scope,
    functions: &[Function],
) -> Result<bool, AllocError>
    ensures { IfOk result (λ b. b ≡ has_first_functions (shown scope.now.program.now) (map bare_function (map function_of functions.now))) }
{
    match functions.split_last() {
        Some((last, threads)) => {
            if !threads.iter().all(|f| is_thread(scope, f)) {
                return Ok(false);
            }
            is_main(alloc, scope.program, last)
        }
        None => Ok(false),
    }
}

/// Whether the locks of each function are balanced. The one error is want of memory.
pub fn has_balanced_locks(
    alloc: Global,
    scope: &Scope,
    functions: &[Function],
) -> Result<bool, AllocError>
    ensures { IfOk result (λ b. b ≡ list_all (λ f. is_balanced (shown scope.now.program.now) [] f.body) (map bare_function (map function_of functions.now))) }
{
    for f in functions {
        if !is_balanced(alloc, scope, f.body.as_slice())? {
            return Ok(false);
        }
    }
    Ok(true)
}
