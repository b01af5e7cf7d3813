// Parts of a set with so many members, in the order of their masks as numbers.
ghost use Rattle.std.specs.Prelude.{◌≡◌, ℕ, suc, ◌+◌, ◌*◌, ◌/◌, ◌%◌, ◌^◌, ◌<◌, ◌≤◌, ◌⊎◌, IsTrue, IsFalse, MatchOption, bit_or, count_ones};
ghost use Rattle.place_sets.specs.Sets.{IsPartOf};
ghost use Rattle.net_laws.specs.Candidates.{members};
ghost use Rattle.candidates.specs.Subsets.{IsChoice, HasNoChoice, IsLeastChoice, IsOneMore, IsStep};

use crate::sets::{difference, lowest, with_member};

/// The set with the least member of the room that it lacks. It is `None` where it lacks none.
fn with_one_more(set: u64, room: u64) -> Option<u64>
    requires { IsPartOf (members set) (members room) }
    ensures { MatchOption result (IsPartOf (members room) (members set)) (λ more. IsOneMore room set more) }
{
    let free = difference(room, set);
    if free == 0 {
        return None;
    }
    Some(with_member(set, lowest(free)))
}

/// The least part of the room with so many members from a set on, which has no more members.
fn filled(from: u64, room: u64, size: u32) -> Option<u64>
    requires part { IsPartOf (members from) (members room) }
    requires few { count_ones from ≤ size }
    ensures { MatchOption result (HasNoChoice room size from) (λ set. IsLeastChoice room size from set) }
{
    let mut set = from;
    while set.count_ones() < size {
        set = with_one_more(set, room)?;
    }
    Some(set)
}

/// The members of the room below a place, with those of the set.
fn with_all_below(set: u64, room: u64, place: u32) -> u64
    requires { place < 64 }
    ensures { result ≡ bit_or set (room % 2 ^ place) }
{
    set | room & ((1 << place) - 1)
}

/// The set with a place that it lacks, and without what lies below.
fn raised(set: u64, place: u32) -> u64
    requires place { place < 64 }
    requires lacks { IsFalse (members set place) }
    ensures number { result ≡ (set / 2 ^ place + 1) * 2 ^ place }
    ensures members { (r : ℕ) → IsTrue (members result r) → (place ≡ r) ⊎ IsTrue (members set r) }
{
    with_member(set >> place << place, place)
}

/// The least part of the room above a set with at most as many members, such that none with as many
/// lies between.
fn step(set: u64, room: u64) -> Option<u64>
    requires { IsPartOf (members set) (members room) }
    ensures { MatchOption result (HasNoChoice room (count_ones set) (suc set)) (λ next. IsStep room set next) }
{
    if set == 0 {
        return None;
    }
    let full = with_all_below(set, room, lowest(set));
    let free = difference(room, full);
    if free == 0 {
        return None;
    }
    Some(raised(full, lowest(free)))
}

/// The least part of the room with so many members.
pub fn first_subset(room: u64, size: u32) -> Option<u64>
    ensures { MatchOption result (HasNoChoice room size 0) (λ set. IsLeastChoice room size 0 set) }
{
    filled(0, room, size)
}

/// The least part of the room above this one with as many members.
pub fn next_subset(set: u64, room: u64) -> Option<u64>
    requires { IsPartOf (members set) (members room) }
    ensures { MatchOption result (HasNoChoice room (count_ones set) (suc set))
        (λ next. IsLeastChoice room (count_ones set) (suc set) next) }
{
    let from = step(set, room)?;
    filled(from, room, set.count_ones())
}
