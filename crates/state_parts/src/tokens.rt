// The tokens of a monitor, as each thread holds them.
ghost use Rattle.std.specs.Prelude.{◌≡◌, ◌<◌, ◌+◌, ◌^◌, true, sum, nat_lt, slice_get, slice_set};
ghost use Rattle.c_meaning.specs.Locks.{held_by};

use c_tree::Program;

/// How many tokens a monitor has.
pub fn capacity(p: &Program, monitor: u32) -> Option<u32>
    ensures { result ≡ slice_get p.now.monitors monitor }
{
    p.monitors.as_slice().get(monitor as usize).copied()
}

/// Whether fewer tokens are held than there are.
pub fn has_room(row: &[u32], capacity: u32) -> bool
    ensures is { result ≡ nat_lt (sum row.now) capacity }
    ensures few { result ≡ true → sum row.now + 1 < 2 ^ 32 }
{
    let mut left = capacity;
    for held in row {
        left = left.saturating_sub(*held);
    }
    0 < left
}

/// How many tokens a thread holds.
pub fn held_by(row: &[u32], t: u32) -> u32
    ensures { result ≡ held_by row.now t }
{
    row.get(t as usize).copied().unwrap_or(0)
}

/// A thread holds so many tokens.
pub fn set_held(row: &mut Vec<u32>, t: u32, held: u32)
    ensures { row.new.items ≡ slice_set row.old.items t held }
{
    if let Some(place) = row.get_mut(t as usize) {
        *place = held;
    }
}
