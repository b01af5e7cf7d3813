// Slots of threads that are kept in a set.

ghost use Rattle.std.specs.Prelude.{◌≡◌, ◌||◌, option_map, OnOk};
ghost use Rattle.c_tree.specs.Expressions.{Place as AnyPlace, place_of};
ghost use Rattle.c_tree.specs.Numbering.{same_slot};
ghost use Rattle.c_check.specs.Slots as spec;

use c_names::constant;
use c_tree::Place;
use indexmap::IndexSet;
use std::alloc::AllocError;

/// What tells a slot from others: its name, and the value of its index where it has one.
type Key<'p> = (&'p [u8], Option<i64>);

/// Slots.
pub type Slots<'p> = IndexSet<Key<'p>>;

/// What tells a slot from others; `None` where its index isn't constant, for then it is like none.
fn key_of(slot: &Place) -> Option<Key<'_>>
    ensures { option_map spec.shown_key result ≡ spec.key_of (place_of slot.now) }
{
    let name = slot.name.as_slice();
    match &slot.index {
        None => Some((name, None)),
        Some(e) => Some((name, Some(constant(e)?))),
    }
}

/// Whether a slot is among these.
pub fn has_slot(slots: &Slots, slot: &Place) -> bool
    ensures { result ≡ spec.has_slot slots.now (place_of slot.now) }
{
    match key_of(slot) {
        Some(key) => slots.contains(&key),
        None => false,
    }
}

/// Keeps a slot. The one error is want of memory.
pub fn add_slot<'p>(slots: &mut Slots<'p>, slot: &'p Place) -> Result<(), AllocError>
    ensures { OnOk result ((other : AnyPlace) → spec.has_slot slots.new other ≡ (same_slot (place_of slot.now) other || spec.has_slot slots.old other)) }
{
    if let Some(key) = key_of(slot) {
        slots.insert(key)?;
    }
    Ok(())
}
