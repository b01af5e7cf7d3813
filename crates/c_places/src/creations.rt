// The threads that a program creates.
ghost use Rattle.std.specs.Prelude.{◌≡◌, ◌++◌, IfOk, OnOk, IfSome, map, option_map, position, find, bytes_eq};
ghost use Rattle.c_tree.specs.Expressions.{place_of, value_of};
ghost use Rattle.c_tree.specs.Values.{constant};
ghost use Rattle.c_tree.specs.Numbering.{main_body, main_name, creations, creations_of};
ghost use Rattle.c_meaning.specs.Shown.{shown, shown_body, shown_stmt};
ghost use Rattle.c_places.specs.Slots.{same_index, slot_at, slots_of, same, kept, created_slot};

use c_names::constant;
use c_tree::{Act, Expr, Function, Place, Program, Stmt};
use std::alloc::{AllocError, Global};

/// Where a thread is kept.
#[derive(Debug, Drop)]
pub struct Slot {
    /// The name of its `pthread_t`, or of the array of them.
    pub name: Vec<u8>,
    /// Its index, if it has one, and the index's number where it is constant.
    pub index: Option<Option<i64>>,
}

/// What is known of the index of a slot.
fn index_of(index: &Option<Expr>) -> Option<Option<i64>>
    ensures { result ≡ option_map constant (value_of index.now) }
{
    match index {
        None => None,
        Some(e) => Some(constant(e)),
    }
}

/// Whether two indices of slots are the same constant, or both absent.
fn is_same_index(a: Option<Option<i64>>, b: Option<Option<i64>>) -> bool
    ensures { result ≡ same_index a b }
{
    match (a, b) {
        (None, None) => true,
        (Some(Some(x)), Some(Some(y))) => x == y,
        _ => false,
    }
}

/// The place of the first slot with this name and index.
pub fn place_of_slot(slots: &[Slot], slot: &Place) -> Option<usize>
    ensures { result ≡ position (λ s. same (kept s) (slot_at (place_of slot.now))) slots.now }
{
    let index = index_of(&slot.index);
    slots.iter().position(|s| s.name.as_slice() == slot.name.as_slice()
        && is_same_index(s.index, index))
}

/// The slot of a create statement.
fn created_slot<'p>(s: &'p Stmt) -> Option<&'p Place>
    ensures { option_map (λ slot. place_of slot.now) result ≡ created_slot (shown_stmt s.now) }
{
    match &s.act {
        Act::Create { slot, .. } => Some(slot),
        _ => None,
    }
}

/// Puts the slots of the create statements of a list behind others. The one error is want of memory.
fn push_slots(alloc: Global, slots: &mut Vec<Slot>, body: &[Stmt]) -> Result<(), AllocError>
    ensures { OnOk result (map kept slots.new.items ≡ map kept slots.old.items ++ slots_of (creations_of (shown_body body.now))) }
{
    for s in body {
        if let Some(slot) = created_slot(s) {
            let name = Vec::from_slice(alloc, slot.name.as_slice())?;
            slots.push(Slot {
                name,
                index: index_of(&slot.index),
            })?;
        }
    }
    Ok(())
}

/// The first function of a name.
fn function_named<'p>(functions: &'p [Function], name: &[u8]) -> Option<&'p Function>
    ensures { option_map (λ f. f.now) result ≡ find (λ f. bytes_eq f.name name.now) functions.now }
{
    functions.iter().find(|f| f.name.as_slice() == name)
}

/// The slots of the create statements of main's own list. The one error is want of memory.
pub fn slots_of(alloc: Global, p: &Program) -> Result<Vec<Slot>, AllocError>
    ensures { IfOk result (λ slots. map kept slots.items ≡ slots_of (creations (shown p.now))) }
{
    let mut slots = Vec::new(alloc);
    if let Some(main) = function_named(p.functions.as_slice(), b"main") {
        push_slots(alloc, &mut slots, main.body.as_slice())?;
    }
    Ok(slots)
}
