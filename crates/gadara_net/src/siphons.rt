// The least siphon: a work list goes backwards over the edges.
ghost use Rattle.std.specs.Prelude.{◌≡◌, ℕ, ◌<◌, ◌≤◌, ◌+◌, length, IsTrue, Bool, ◌↔◌, ◌⊎◌, ◌||◌, ◌&&◌, ◌==◌, ◌^◌};
ghost use Rattle.net_laws.specs.Net.{HasEdge};
ghost use Rattle.net_laws.specs.Siphons.{HasPlace};
ghost use Rattle.net_laws.specs.Candidates.{members};
ghost use Rattle.gadara_net.specs.Flows.{IsFlow, NamesResources, flow_net};
ghost use Rattle.gadara_net.specs.Indexed.{IsIndexOf};
ghost use Rattle.gadara_net.specs.Marks.{AreMarked, HaveGrown, IsGiverMarked, IsSourceMarked, AreGiversMarked, HasPoint, HasMember, AreMarkedBefore};

use crate::chains::Chains;
use crate::flow::Flow;
use crate::marks::{gives_member, mark, takes_member};
use crate::sets::is_member;
use edges::Edge;
use place_sets::PlaceSet;

/// Marks the point that the edge leaves, where the edge gives a member of the set.
fn mark_giver<S: PlaceSet>(
    flow: &Flow,
    edge: Edge,
    resources: u64,
    out: &mut S,
    row: &mut [u32],
    end: usize,
) -> usize
    requires flow { IsFlow flow.now }
    requires edge { HasEdge (flow_net flow.now) edge }
    requires bound { length flow.now.points ≤ S.bound out.old }
    requires marked { AreMarked (flow_net flow.now) (members resources)
        (S.places out.old) row.old end }
    ensures bound { S.bound out.new ≡ S.bound out.old }
    ensures marked { AreMarked (flow_net flow.now) (members resources)
        (S.places out.new) row.new result }
    ensures grown { HaveGrown (S.places out.old) (S.places out.new) row.old row.new end result }
    ensures giver { IsGiverMarked (members resources) (S.places out.new) edge }
{
    if !gives_member(edge.op, resources) {
        return end;
    }
    mark(edge.from, out, row, end)
}

/// Marks the point that the edge leaves, where the edge takes no member of the set. The point that
/// it leads to is marked.
fn mark_source<S: PlaceSet>(
    flow: &Flow,
    edge: Edge,
    resources: u64,
    out: &mut S,
    row: &mut [u32],
    end: usize,
) -> usize
    requires flow { IsFlow flow.now }
    requires edge { HasEdge (flow_net flow.now) edge }
    requires bound { length flow.now.points ≤ S.bound out.old }
    requires marked { AreMarked (flow_net flow.now) (members resources)
        (S.places out.old) row.old end }
    requires to { IsTrue (S.places out.old edge.to) }
    ensures bound { S.bound out.new ≡ S.bound out.old }
    ensures marked { AreMarked (flow_net flow.now) (members resources)
        (S.places out.new) row.new result }
    ensures grown { HaveGrown (S.places out.old) (S.places out.new) row.old row.new end result }
    ensures source { IsSourceMarked (members resources) (S.places out.new) edge }
{
    if takes_member(edge.op, resources) {
        return end;
    }
    mark(edge.from, out, row, end)
}

/// Marks each point from which an edge gives a member of the set. The row lists them up to the
/// number answered.
fn mark_givers<S: PlaceSet>(flow: &Flow, resources: u64, out: &mut S, row: &mut [u32]) -> usize
    requires flow { IsFlow flow.now }
    requires bound { length flow.now.points ≤ S.bound out.old }
    requires none { AreMarked (flow_net flow.now) (members resources) (S.places out.old) row.old 0 }
    ensures bound { S.bound out.new ≡ S.bound out.old }
    ensures marked { AreMarked (flow_net flow.now) (members resources)
        (S.places out.new) row.new result }
    ensures givers { AreGiversMarked (flow_net flow.now) (members resources) (S.places out.new) }
{
    let mut end = 0;
    for edge in flow.edges.as_slice() {
        end = mark_giver(flow, *edge, resources, out, row, end);
    }
    end
}

/// Marks each point from which an edge that takes no member of the set leads to this point.
fn mark_before<S: PlaceSet>(
    flow: &Flow,
    into: &Chains,
    resources: u64,
    point: u32,
    out: &mut S,
    row: &mut [u32],
    start: usize,
) -> usize
    requires flow { IsFlow flow.now }
    requires index { IsIndexOf into.now flow.now }
    requires bound { length flow.now.points ≤ S.bound out.old }
    requires marked { AreMarked (flow_net flow.now) (members resources)
        (S.places out.old) row.old start }
    requires point { point < length flow.now.points }
    requires is_marked { IsTrue (S.places out.old point) }
    ensures bound { S.bound out.new ≡ S.bound out.old }
    ensures marked { AreMarked (flow_net flow.now) (members resources)
        (S.places out.new) row.new result }
    ensures grown { HaveGrown (S.places out.old) (S.places out.new) row.old row.new start result }
    ensures before { AreMarkedBefore (flow_net flow.now) (members resources)
        (S.places out.new) point }
{
    let mut end = start;
    let mut next = into.last[point as usize];
    while next > 0 {
        let edge = flow.edges.as_slice()[next as usize - 1];
        end = mark_source(flow, edge, resources, out, row, end);
        next = into.before[next as usize - 1];
    }
    end
}

/// Marks each point from which edges that take no member of the set lead to a marked point.
fn mark_sources<S: PlaceSet>(
    flow: &Flow,
    into: &Chains,
    resources: u64,
    out: &mut S,
    row: &mut [u32],
    start: usize,
)
    requires flow { IsFlow flow.now }
    requires index { IsIndexOf into.now flow.now }
    requires bound { length flow.now.points ≤ S.bound out.old }
    requires marked { AreMarked (flow_net flow.now) (members resources)
        (S.places out.old) row.old start }
    requires givers { AreGiversMarked (flow_net flow.now) (members resources) (S.places out.old) }
    ensures bound { S.bound out.new ≡ S.bound out.old }
    ensures found { (p : ℕ) → IsTrue (S.places out.new p) ↔
        HasPoint (flow_net flow.now) (members resources) p }
{
    let mut end = start;
    let mut done = 0;
    while done < end {
        end = mark_before(flow, into, resources, row[done], out, row, end);
        done += 1;
    }
}

/// Puts the place in, where this is asked.
fn insert_if<S: PlaceSet>(asked: bool, place: u32, out: &mut S)
    requires { place < S.bound out.old }
    ensures bound { S.bound out.new ≡ S.bound out.old }
    ensures places { (other : ℕ) → S.places out.new other ≡
        (S.places out.old other || (asked && other == place)) }
{
    if asked {
        out.insert(place);
    }
}

/// Puts in the places of the members of the set, which stand behind those of the points.
fn insert_members<S: PlaceSet>(points: u32, count: u32, resources: u64, out: &mut S)
    requires few { count ≤ 64 }
    requires fits { points + count < 2 ^ 32 }
    requires bound { points + count ≤ S.bound out.old }
    ensures bound { S.bound out.new ≡ S.bound out.old }
    ensures places { (place : ℕ) → IsTrue (S.places out.new place) ↔
        (IsTrue (S.places out.old place) ⊎ HasMember (members resources) points count place) }
{
    for r in 0..count {
        insert_if(is_member(resources, r), points + r, out);
    }
}

/// Leaves in `out` the places of the least siphon of the set.
pub fn fill_siphon<S: PlaceSet>(
    flow: &Flow,
    into: &Chains,
    resources: u64,
    out: &mut S,
    row: &mut [u32],
)
    requires flow { IsFlow flow.now }
    requires index { IsIndexOf into.now flow.now }
    requires named { NamesResources flow.now resources }
    requires size { S.bound out.old ≡ length flow.now.points + length flow.now.tokens }
    requires room { length row.old ≡ length flow.now.points }
    ensures size { S.bound out.new ≡ S.bound out.old }
    ensures places { (place : ℕ) → IsTrue (S.places out.new place) ↔
        HasPlace (flow_net flow.now) (members resources) place }
{
    out.clear();
    let end = mark_givers(flow, resources, out, row);
    mark_sources(flow, into, resources, out, row, end);
    insert_members(
        flow.points.len() as u32,
        flow.tokens.len() as u32,
        resources,
        out,
    );
}
