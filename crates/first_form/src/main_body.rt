// Statements of main.
ghost use Rattle.std.specs.Prelude.{◌≡◌, ◌&&◌, IfOk};
ghost use Rattle.std.specs.List.{list_all};
ghost use Rattle.c_rules.specs.Names.{mentions};
ghost use Rattle.first_form.specs.FirstForm.{slots_of, slot_len, start_functions, is_thread_kind, is_number_below, is_slot, is_null, is_joining, is_main_body, created, joined, has_number, numbers_differ, has_good_threads};
ghost use Rattle.c_tree.specs.Expressions.{expr_of, place_of, value_of};
ghost use Rattle.first_form.specs.Shown.{shown, shown_stmt, shown_body};
ghost use Rattle.first_form.specs.Bodies.{returns_null, is_join, number_of, created_by, joined_by};

use c_tree::{Act, Expr, Kind, Name, Place, Program, Stmt};
use std::alloc::{AllocError, Global};

/// Whether the array of threads has this name.
fn is_slot_name(p: &Program, name: &Name) -> bool
    ensures { result ≡ mentions (slots_of (shown p.now)) name.now }
{
    p.threads
        .as_slice()
        .iter()
        .any(|slot| name.as_slice() == slot.name.as_slice())
}

/// Whether a function is the start function of threads.
pub fn is_thread_kind(kind: Kind) -> bool
    ensures { result ≡ is_thread_kind kind }
{
    matches!(kind, Kind::Thread)
}

/// Whether threads may begin with the function of this name.
fn is_start(p: &Program, name: &Name) -> bool
    ensures { result ≡ mentions (start_functions (shown p.now)) name.now }
{
    p.functions.as_slice().iter().any(|f| is_thread_kind(f.kind)
        && name.as_slice() == f.name.as_slice())
}

/// The length of the array of threads, or 0.
fn threads_len(p: &Program) -> u32
    ensures { result ≡ slot_len (shown p.now).threads }
{
    match p.threads.get(0) {
        Some(slot) => slot.len.unwrap_or(0),
        None => 0,
    }
}

/// The index of a place, where it is a number.
fn number_of(index: &Option<Expr>) -> Option<u32>
    ensures { result ≡ number_of (value_of index.now) }
{
    match index {
        Some(Expr::Number(k)) => Some(*k),
        _ => None,
    }
}

/// Whether a place is a member of the array of threads.
fn is_slot(p: &Program, place: &Place) -> bool
    ensures { result ≡ is_slot (shown p.now) (place_of place.now) }
{
    match number_of(&place.index) {
        Some(k) => is_slot_name(p, &place.name) && k < threads_len(p),
        None => false,
    }
}

/// Whether an expression is `NULL`.
fn is_null(e: &Expr) -> bool
    ensures { result ≡ is_null (expr_of e.now) }
{
    matches!(e, Expr::Number(0))
}

fn is_join(p: &Program, s: &Stmt) -> bool
    ensures { result ≡ is_join (shown p.now) (shown_stmt s.now) }
{
    match &s.act {
        Act::Join { slot } => is_slot(p, slot),
        _ => false,
    }
}

fn returns_null(s: &Stmt) -> bool
    ensures { result ≡ returns_null (shown_stmt s.now) }
{
    match &s.act {
        Act::Return { value: Some(e) } => is_null(e),
        _ => false,
    }
}

/// Whether a body is joins, and last `return 0`.
fn is_joining(p: &Program, body: &[Stmt]) -> bool
    ensures { result ≡ is_joining (shown p.now) (shown_body body.now) }
{
    match body.split_last() {
        Some((last, joins)) => returns_null(last) && joins.iter().all(|s| is_join(p, s)),
        None => false,
    }
}

fn created_by(s: &Stmt) -> Option<u32>
    ensures { result ≡ created_by (shown_stmt s.now) }
{
    match &s.act {
        Act::Create { slot, .. } => number_of(&slot.index),
        _ => None,
    }
}

fn joined_by(s: &Stmt) -> Option<u32>
    ensures { result ≡ joined_by (shown_stmt s.now) }
{
    match &s.act {
        Act::Join { slot } => number_of(&slot.index),
        _ => None,
    }
}

/// The indices that a body creates threads at, in its order. The one error is want of memory.
fn created(alloc: Global, body: &[Stmt]) -> Result<Vec<u32>, AllocError>
    ensures { IfOk result (λ indices. indices.items ≡ created (shown_body body.now)) }
{
    let mut indices = Vec::new(alloc);
    for s in body {
        if let Some(k) = created_by(s) {
            indices.push(k)?;
        }
    }
    Ok(indices)
}

/// The indices that a body joins, in its order. The one error is want of memory.
fn joined(alloc: Global, body: &[Stmt]) -> Result<Vec<u32>, AllocError>
    ensures { IfOk result (λ indices. indices.items ≡ joined (shown_body body.now)) }
{
    let mut indices = Vec::new(alloc);
    for s in body {
        if let Some(k) = joined_by(s) {
            indices.push(k)?;
        }
    }
    Ok(indices)
}

fn numbers_differ(numbers: &[u32]) -> bool
    ensures { result ≡ numbers_differ numbers.now }
{
    let mut rest = numbers;
    while let Some((first, later)) = rest.split_first() {
        if later.contains(first) {
            return false;
        }
        rest = later;
    }
    true
}

fn are_created(created: &[u32], joined: &[u32]) -> bool
    ensures { result ≡ list_all (has_number created.now) joined.now }
{
    joined.iter().all(|k| created.contains(k))
}

/// Whether a body has at most 31 creates, creates no thread twice, joins none twice, and joins only
/// those that it creates. The one error is want of memory. That only created threads are joined is asked first, so a
/// thread that is joined twice is found among the first 32.
pub fn has_good_threads(alloc: Global, body: &[Stmt]) -> Result<bool, AllocError>
    ensures { IfOk result (λ b. b ≡ has_good_threads (shown_body body.now)) }
{
    let created = created(alloc, body)?;
    let joined = joined(alloc, body)?;
    Ok(
        created.len() <= 31
            && numbers_differ(&created)
            && are_created(&created, &joined)
            && numbers_differ(&joined),
    )
}

/// Whether a create names a member of the array of threads, a start function and `NULL`.
fn is_creation(p: &Program, slot: &Place, function: &Name, arg: &Expr) -> bool
    ensures { result ≡ (is_slot (shown p.now) (place_of slot.now) && (mentions (start_functions (shown p.now)) function.now && is_null (expr_of arg.now))) }
{
    is_slot(p, slot) && is_start(p, function) && is_null(arg)
}

/// Whether a body is creates, then joins, and last `return 0`.
pub fn is_main_body(p: &Program, body: &[Stmt]) -> bool
    ensures { result ≡ is_main_body (shown p.now) (shown_body body.now) }
{
    let mut rest = body;
    while let Some((first, later)) = rest.split_first() {
        let Act::Create {
            slot,
            function,
            arg,
        } = &first.act
        else {
            return is_joining(p, rest);
        };
        if !is_creation(p, slot, function, arg) {
            return false;
        }
        rest = later;
    }
    false
}
