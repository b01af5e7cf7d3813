// Arcs between resources, as a row of the ends of arcs for each, and what they reach.
ghost use Rattle.std.specs.Prelude.{◌≡◌, ℕ, ◌<◌, ◌⊎◌, ◌↔◌, IsTrue, length, slice_index};
ghost use Rattle.net_laws.specs.Candidates.{members};
ghost use Rattle.gadara_net.specs.Graphs.{has_arc};
ghost use Rattle.candidates.specs.Reached.{IsLed, IsMutual, IsCircular, AreReversed};

use crate::sets::{common, difference, is_member, lowest, union, with_member, without_member};

/// The set with a resource more, where a row leads to another resource.
fn with_source(found: u64, row: u64, target: u32, source: u32) -> u64
    requires target { target < 64 }
    requires source { source < 64 }
    ensures { (r : ℕ) → IsTrue (members result r) ↔
        (IsTrue (members found r) ⊎ (IsTrue (members row target) × (source ≡ r))) }
{
    if !is_member(row, target) {
        return found;
    }
    with_member(found, source)
}

/// The resources from which an arc leads to this one.
fn sources(rows: &[u64], target: u32) -> u64
    requires rows { length rows.now ≡ 64 }
    requires target { target < 64 }
    ensures { (r : ℕ) → IsTrue (members result r) ↔ IsTrue (has_arc rows.now r target) }
{
    let mut found = 0;
    for source in 0..64 {
        found = with_source(found, rows[source as usize], target, source);
    }
    found
}

/// The arcs the other way round.
pub fn reversed(rows: &[u64]) -> [u64; 64]
    requires { length rows.now ≡ 64 }
    ensures { AreReversed rows.now result }
{
    let mut back = [0; 64];
    for (target, row) in back.iter_mut().enumerate() {
        *row = sources(rows, target as u32);
    }
    back
}

/// The members of a set that are reached from a resource by one or more arcs through members.
pub fn reached(rows: &[u64], resource: u32, set: u64) -> u64
    requires rows { length rows.now ≡ 64 }
    requires resource { resource < 64 }
    ensures { (s : ℕ) → IsTrue (members result s) ↔
        (IsTrue (members set s) × IsLed rows.now (members set) resource s) }
{
    let mut seen = common(rows[resource as usize], set);
    let mut left = seen;
    while left != 0 {
        let next = lowest(left);
        let unseen = difference(common(rows[next as usize], set), seen);
        seen = union(seen, unseen);
        left = without_member(union(left, unseen), next);
    }
    seen
}

/// The resources that are reached from this one and from which it is reached, and itself. `back` has
/// the arcs the other way round.
pub fn mutual(rows: &[u64], back: &[u64], resource: u32) -> u64
    requires rows { length rows.now ≡ 64 }
    requires back { length back.now ≡ 64 }
    requires reversed { AreReversed rows.now back.now }
    requires resource { resource < 64 }
    ensures { (s : ℕ) → IsTrue (members result s) ↔ IsMutual rows.now resource s }
{
    let there = reached(rows, resource, u64::MAX);
    let again = reached(back, resource, u64::MAX);
    with_member(common(there, again), resource)
}

/// Whether a set is nonempty and each member is reached from each, also from itself, by arcs inside
/// the set. `back` has the arcs the other way round.
pub fn is_circular(rows: &[u64], back: &[u64], set: u64) -> bool
    requires rows { length rows.now ≡ 64 }
    requires back { length back.now ≡ 64 }
    requires reversed { AreReversed rows.now back.now }
    ensures { IsTrue result ↔ IsCircular rows.now set }
{
    if set == 0 {
        return false;
    }
    let first = lowest(set);
    reached(rows, first, set) == set && reached(back, first, set) == set
}
