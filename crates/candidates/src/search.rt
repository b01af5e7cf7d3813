// The search for candidates.
ghost use Rattle.std.specs.Prelude.{◌≡◌, ℕ, suc, ◌+◌, ◌<◌, ◌≤◌, ◌^◌, ◌%◌, ◌↔◌, ◌⊎◌, IsTrue, MatchOption, bit_or, length, count_ones};
ghost use Rattle.place_sets.specs.Sets.{IsPartOf};
ghost use Rattle.net_laws.specs.Candidates.{IsCandidate, members};
ghost use Rattle.gadara_net.specs.Flows.{flow_net};
ghost use Rattle.gadara_net.specs.Graphs.{has_arc};
ghost use Rattle.candidates.specs.Reached.{IsMutual, AreReversed};
ghost use Rattle.candidates.specs.Components.{HasSmallComponents, IsFirstLarge};
ghost use Rattle.candidates.specs.Next.{IsStart, IsBehind, IsLast, IsNext};
ghost use Rattle.candidates.specs.Subsets.{IsChoice};
ghost use Rattle.candidates.specs.Sized.{IsSized, HasTop, IsLeastSized, IsLeastTopped, IsSizedStart, IsLeastRest, IsFirstLarger};

use crate::graph::{is_circular, mutual, reversed};
use crate::sets::with_member;
use crate::subsets::{first_subset, next_subset};
use gadara_net::Net;
use std::marker::Model;

/// How many members a strong component has at most before it is too large.
const MOST_MEMBERS: u32 = 14;

/// The candidates of a net, in order: by size, and those of one size by their masks as numbers.
///
/// It keeps the arcs and the strong components of the net, and takes no memory. Contracts see the
/// flow of the net. A search looks at the parts of each strong component, so its time grows as 2 to
/// the size of the largest one: see `too_large`.
#[derive(Drop)]
pub struct Candidates<'a> {
    net: &'a Net,
    leaving: [u64; 64],
    entering: [u64; 64],
    components: [u64; 64],
}

impl<'a> Model for Candidates<'a> {
    ghost use Rattle.gadara_net.specs.declared.flow.Flow.{Flow};

    ghost Value = { Flow };

    ghost use Rattle.candidates.specs.Kept.{AreKept};

    ghost view = { λ c. c.net.now };

    ghost invariant = { λ c. AreKept c.net.now c.leaving c.entering c.components };
}

/// The strong component of each resource, by its arcs in both directions.
fn components(rows: &[u64], back: &[u64]) -> [u64; 64]
    requires rows { length rows.now ≡ 64 }
    requires back { length back.now ≡ 64 }
    requires reversed { AreReversed rows.now back.now }
    ensures { (r s : ℕ) → r < 64 → IsTrue (has_arc result r s) ↔ IsMutual rows.now r s }
{
    let mut found = [0; 64];
    for (r, row) in found.iter_mut().enumerate() {
        *row = mutual(rows, back, r as u32);
    }
    found
}

/// The greatest member of a set, or 0 where it has none.
fn greatest(set: u64) -> u32
    ensures below { result < 64 }
    ensures within { set < 2 ^ suc result }
    ensures least { (other : ℕ) → set < other → 2 ^ result ≤ other }
{
    63u32.saturating_sub(set.leading_zeros())
}

/// The least part of the room with so many members that is above a number, once `top` is put in. The
/// number has no member above `top`; where it has `top`, the rest of it is such a part.
fn first_rest(room: u64, size: u32, top: u32, after: u64) -> Option<u64>
    requires top { top < 64 }
    requires within { after < 2 ^ suc top }
    requires rest { 2 ^ top ≤ after → IsChoice room size (after % 2 ^ top) }
    ensures { MatchOption result
        ((rest : ℕ) → IsChoice room size rest → 2 ^ top + rest ≤ after)
        (λ rest. IsLeastRest room size after top rest) }
{
    if after >> top == 0 {
        return first_subset(room, size);
    }
    next_subset(after & ((1 << top) - 1), room)
}

impl<'a> Candidates<'a> {
    /// A search through the net.
    pub fn new(net: &'a Net) -> Candidates<'a>
        ensures { result ≡ net.now }
    {
        net.keeps_flow();
        let leaving = net.hold_wait();
        let entering = reversed(&leaving);
        let components = components(&leaving, &entering);
        Candidates {
            net,
            leaving,
            entering,
            components,
        }
    }

    /// The strong component of more than 14 resources with the least member, if there is one.
    pub fn too_large(&self) -> Option<u64>
        ensures { MatchOption result (HasSmallComponents (flow_net self.now))
            (λ large. IsFirstLarge (flow_net self.now) large) }
    {
        for r in 0..self.net.resources() {
            let component = self.components[r as usize];
            if component.count_ones() > MOST_MEMBERS {
                return Some(component);
            }
        }
        None
    }

    /// Whether a set of resources is a candidate.
    pub fn is_candidate(&self, resources: u64) -> bool
        ensures { IsTrue result ↔ IsCandidate (flow_net self.now) (members resources) }
    {
        is_circular(&self.leaving, &self.entering, resources)
    }

    /// The other members of the strong component of a resource that are below it.
    fn room_below(&self, top: u32) -> u64
        requires { top < 64 }
        ensures rest { (C : ℕ) → IsCandidate (flow_net self.now) (members C) → HasTop C top →
            IsPartOf (members (C % 2 ^ top)) (members result) }
        ensures below { result < 2 ^ top }
    {
        self.components[top as usize] & ((1 << top) - 1)
    }

    /// The least candidate of a size above a number that has a certain greatest member.
    fn next_with_top(&self, size: u32, top: u32, after: u64) -> Option<u64>
        requires size { 0 < size }
        requires top { top < 64 }
        requires start { IsSizedStart (flow_net self.now) size after }
        requires within { after < 2 ^ suc top }
        ensures { MatchOption result
            ((C : ℕ) → IsSized (flow_net self.now) size after C → HasTop C top → ⊥)
            (λ found. IsLeastTopped (flow_net self.now) size after top found) }
    {
        let room = self.room_below(top);
        let mut next = first_rest(room, size - 1, top, after);
        while let Some(rest) = next {
            let found = with_member(rest, top);
            if self.is_candidate(found) {
                return Some(found);
            }
            next = next_subset(rest, room);
        }
        None
    }

    /// The least candidate of a size above a number.
    fn next_of_size(&self, size: u32, after: u64) -> Option<u64>
        requires size { 0 < size }
        requires start { IsSizedStart (flow_net self.now) size after }
        ensures { MatchOption result ((C : ℕ) → IsSized (flow_net self.now) size after C → ⊥)
            (λ found. IsLeastSized (flow_net self.now) size after found) }
    {
        for top in greatest(after)..64 {
            if let Some(found) = self.next_with_top(size, top, after) {
                return Some(found);
            }
        }
        None
    }

    /// The first candidate with more members than a number says.
    fn next_larger(&self, size: u32) -> Option<u64>
        requires { size ≤ 64 }
        ensures { MatchOption result
            ((C : ℕ) → C < 2 ^ 64 → IsCandidate (flow_net self.now) (members C) → count_ones C ≤ size)
            (λ found. IsFirstLarger (flow_net self.now) size found) }
    {
        for larger in size + 1..65 {
            if let Some(found) = self.next_of_size(larger, 0) {
                return Some(found);
            }
        }
        None
    }

    /// The next candidate behind a set, by size and then by the masks as numbers. The set is a
    /// candidate, or the empty one for the first of all. It is `None` exactly where no candidate
    /// stands behind the set.
    pub fn next_after(&self, after: u64) -> Option<u64>
        requires { IsStart (flow_net self.now) after }
        ensures { MatchOption result (IsLast (flow_net self.now) after)
            (λ next. IsNext (flow_net self.now) after next) }
    {
        let size = after.count_ones();
        if after != 0 {
            if let Some(found) = self.next_of_size(size, after) {
                return Some(found);
            }
        }
        self.next_larger(size)
    }
}
