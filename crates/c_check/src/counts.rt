// How much a program has.

ghost use Rattle.std.specs.Prelude.{◌≡◌, ◌<◌, ◌≤◌, ◌+◌, length, map, sum_by, nat_lt, option_copied, find, MatchOption};
ghost use Rattle.c_tree.specs.Lined.{function_of, program_of, bare_object, bare_program, bare_stmts, stmts_of};
ghost use Rattle.c_tree.specs.Numbering as numbering;
ghost use Rattle.c_rules.specs.Sites as sites;
ghost use Rattle.c_rules.specs.declared.rule.Count.{Count as AnyCount};
ghost use Rattle.c_rules.specs.Counts as spec;
ghost use Rattle.c_check.specs.Tables as tables;

use crate::functions::is_main;
use c_rules::Count;
use c_tree::{Act, Array, Function, Object, Program, Stmt};

/// The number of a count that is allowed.
pub fn limit(what: Count) -> u32
    ensures { result ≡ spec.limit what }
{
    match what {
        Count::Threads => 32,
        Count::Mutexes => 48,
        Count::Monitors => 16,
        Count::Cells => 65536,
    }
}

/// How many of these statements create threads.
fn count_creates(body: &[Stmt]) -> usize
    ensures count { result ≡ tables.count_creates (stmts_of body.now) }
    ensures within { result ≤ length body.now }
{
    let mut count = 0;
    for s in body {
        if matches!(s.act, Act::Create { .. }) {
            count += 1;
        }
    }
    count
}

/// The first of these functions that is main.
pub fn find_main(functions: &[Function]) -> Option<&Function>
    ensures { option_copied result ≡ find (λ f. sites.is_main (function_of f)) functions.now }
{
    functions.iter().find(|f| is_main(f))
}

/// Whether there are more objects than a number, with the members of arrays.
fn have_objects_above(objects: &[Object], most: u64) -> bool
    requires { most < 4294967296 }
    ensures { result ≡ nat_lt most (sum_by tables.object_count objects.now) }
{
    let mut total = 0;
    for o in objects {
        total += o.len.unwrap_or(1) as u64;
        if total > most {
            return true;
        }
    }
    false
}

/// Whether arrays have more members than a number.
fn have_members_above(arrays: &[Array], most: u64) -> bool
    requires { most < 4294967296 }
    ensures { result ≡ nat_lt most (sum_by (λ a. a.len) arrays.now) }
{
    let mut total = 0;
    for a in arrays {
        total += a.len as u64;
        if total > most {
            return true;
        }
    }
    false
}

/// Whether a program has more ints, with the members of arrays, than a number.
fn has_cells_above(p: &Program, most: u64) -> bool
    requires { most < 4294967296 }
    ensures { result ≡ nat_lt most (length p.now.ints + sum_by (λ a. a.len) p.now.arrays) }
{
    let ints = p.ints.len() as u64;
    ints > most || have_members_above(p.arrays.as_slice(), most - ints)
}

/// How many threads a program has, with main.
fn thread_count(p: &Program) -> usize
    ensures { result ≡ numbering.thread_count (bare_program (program_of p.now)) }
{
    match find_main(p.functions.as_slice()) {
        Some(main) => count_creates(main.body.as_slice()) + 1,
        None => 1,
    }
}

/// Whether a count passes its number.
fn passes(p: &Program, what: Count) -> bool
    ensures { result ≡ nat_lt (spec.limit what) (spec.amount (program_of p.now) what) }
{
    match what {
        Count::Threads => thread_count(p) > 32,
        Count::Mutexes => have_objects_above(p.mutexes.as_slice(), 48),
        Count::Monitors => p.monitors.len() > 16,
        Count::Cells => has_cells_above(p, 65536),
    }
}

/// The first count that passes its number.
pub fn first_passed(p: &Program) -> Option<Count>
    ensures { MatchOption result ((what : AnyCount) → spec.amount (program_of p.now) what ≤ spec.limit what) (λ what. spec.FirstPassed (program_of p.now) what) }
{
    if passes(p, Count::Threads) {
        return Some(Count::Threads);
    }
    if passes(p, Count::Mutexes) {
        return Some(Count::Mutexes);
    }
    if passes(p, Count::Monitors) {
        return Some(Count::Monitors);
    }
    if passes(p, Count::Cells) {
        return Some(Count::Cells);
    }
    None
}
