// Nets.
ghost use Rattle.edges.specs.declared.Edge.{Edge as AnyEdge};
ghost use Rattle.std.specs.Prelude.{◌≡◌, ℕ, ◌+◌, ◌<◌, ◌≤◌, length, IfOk, slice_get, Some, IsTrue, ◌↔◌, slice_index, MatchOption, nat_lt};
ghost use Rattle.net_laws.specs.Siphons.{HasPlace};
ghost use Rattle.net_laws.specs.Candidates.{members, arc, InComponent};
ghost use Rattle.net_laws.specs.Lines.{Holds, IsBad};
ghost use Rattle.gadara_net.specs.Bounds.{IsFirst, general_of};
ghost use Rattle.gadara_net.specs.Flows.{IsFlow, NamesResources, flow_net, targets_of};
ghost use Rattle.gadara_net.specs.Into.{IsLastTo};
ghost use Rattle.weight_laws.specs.Flow.{tries};

use crate::chains::Chains;
use crate::flow::Flow;
use crate::graphs::{arcs, join_all, mutual};
use crate::lines::{first_kind, general_kind, kind_holds, measure};
use crate::point_rows::PointRows;
use crate::sets::{are_below, has_members};
use crate::siphons::fill_siphon;
use crate::sums::sum_of;
use crate::work::Work;
use certificate::Line;
use edges::Edge;
use place_sets::PlaceSet;
use std::alloc::{AllocError, Global};
use std::marker::Model;

/// A net of points and resources.
///
/// Place `p` is point `p`, and resource `r` is place `points + r`. Contracts see the flow that it
/// was made from.
#[derive(Drop)]
pub struct Net {
    flow: Flow,
    into: Chains,
    rows: PointRows,
}

impl Model for Net {
    ghost use Rattle.std.specs.Prelude.{length};
    ghost use Rattle.gadara_net.specs.declared.flow.Flow.{Flow};

    ghost Value = { Flow };

    ghost use Rattle.gadara_net.specs.Flows.{IsFlow};
    ghost use Rattle.gadara_net.specs.Indexed.{IsIndexOf};
    ghost use Rattle.gadara_net.specs.PointRows.{AreNoted};

    ghost view = { λ net. net.flow };

    ghost invariant = { λ net. IsFlow net.flow × IsIndexOf net.into net.flow ×
        AreNoted net.rows net.flow };
}

/// The points that the edges lead to.
fn targets(alloc: Global, edges: &[Edge]) -> Result<Vec<u32>, AllocError>
    ensures { IfOk result (λ points. points.items ≡ targets_of edges.now) }
{
    edges.iter().map(|edge| edge.to).collect(alloc)
}

impl Net {
    /// The net of a flow. The one error is want of memory.
    ///
    /// The flow keeps this: along each edge the counts change by what the edge takes and gives; a
    /// point with an edge that acquires or reacquires has no other edge; what is taken or given is
    /// one of its resources, of which there are at most 64 and each has tokens, a mutex one; no
    /// point holds a mutex twice; edges lead between its points, these are of its threads and have
    /// a count for each resource; and there are fewer than 2^32 places and edges.
    pub fn net(alloc: Global, flow: Flow) -> Result<Net, AllocError>
        requires { IsFlow flow }
        ensures { IfOk result (λ net. net ≡ flow) }
    {
        let targets = targets(alloc, flow.edges.as_slice())?;
        let into = Chains::new(alloc, &targets, flow.points.len() as u32)?;
        let rows = PointRows::new(alloc, &flow)?;
        Ok(Net { flow, into, rows })
    }

    /// Law: the flow that a net was made from keeps what was asked of it.
    pub fn keeps_flow(&self)
        ensures { IsFlow self.now }
    {
        let _ = &self.flow;
    }

    /// How many places there are: points and resources.
    pub fn places(&self) -> u32
        ensures { result ≡ length self.now.points + length self.now.tokens }
    {
        self.flow.points.len() as u32 + self.flow.tokens.len() as u32
    }

    /// How many points there are.
    pub fn points(&self) -> u32
        ensures { result ≡ length self.now.points }
    {
        self.flow.points.len() as u32
    }

    /// How many resources there are.
    pub fn resources(&self) -> u32
        ensures { result ≡ length self.now.tokens }
    {
        self.flow.tokens.len() as u32
    }

    /// How many tokens the resource has, which is below `resources()`.
    pub fn tokens(&self, r: u32) -> u32
        requires { r < length self.now.tokens }
        ensures { result ≡ (flow_net self.now).tokens r }
    {
        self.flow.tokens.as_slice()[r as usize]
    }

    /// How many threads there are.
    pub fn threads(&self) -> u32
        ensures { result ≡ self.now.threads }
    {
        self.flow.threads
    }

    /// How many mutexes there are. The resources below are mutexes, the rest monitors.
    pub fn mutexes(&self) -> u32
        ensures { result ≡ self.now.mutexes }
    {
        self.flow.mutexes
    }

    /// The thread of a point, which is below `points()`.
    pub fn thread_of(&self, point: u32) -> u32
        requires { point < length self.now.points }
        ensures { result ≡ (flow_net self.now).thread_of point }
    {
        self.flow.points.as_slice()[point as usize].thread
    }

    /// Whether the thread waits for a signal at a point, which is below `points()`.
    pub fn waiting(&self, point: u32) -> bool
        requires { point < length self.now.points }
        ensures { result ≡ (flow_net self.now).waiting point }
    {
        self.flow.points.as_slice()[point as usize].waiting
    }

    /// How many tokens of a resource, which is below `resources()`, are held at a point, which is
    /// below `points()`.
    pub fn held(&self, point: u32, r: u32) -> u32
        requires point { point < length self.now.points }
        requires resource { r < length self.now.tokens }
        ensures { result ≡ (flow_net self.now).held point r }
    {
        self.flow.points.as_slice()[point as usize].held.as_slice()[r as usize]
    }

    /// The set of the resources of which a token is held at a point, which is below `points()`.
    pub fn held_set(&self, point: u32) -> u64
        requires { point < length self.now.points }
        ensures { (r : ℕ) → members result r ≡ nat_lt 0 ((flow_net self.now).held point r) }
    {
        self.rows.held[point as usize]
    }

    /// Whether a lock is tried at a point, which is below `points()`.
    pub fn tries(&self, point: u32) -> bool
        requires { point < length self.now.points }
        ensures { result ≡ tries (flow_net self.now) point }
    {
        self.rows.tried[point as usize]
    }

    /// How many edges there are.
    pub fn edges(&self) -> u32
        ensures { result ≡ length self.now.edges }
    {
        self.flow.edges.len() as u32
    }

    /// An edge, by its number, which is below `edges()`.
    pub fn edge(&self, n: u32) -> Edge
        requires { n < length self.now.edges }
        ensures { slice_get self.now.edges n ≡ Some result }
    {
        self.flow.edges.as_slice()[n as usize]
    }

    /// The last edge that leads to a point, which is below `points()`.
    pub fn last_edge_to(&self, point: u32) -> Option<u32>
        requires { point < length self.now.points }
        ensures { IsLastTo self.now.edges point (length self.now.edges) result }
    {
        match self.into.last[point as usize] {
            0 => None,
            after => Some(after - 1),
        }
    }

    /// The last edge before another one, which is below `edges()`, that leads to the same point.
    pub fn edge_before(&self, n: u32) -> Option<u32>
        requires { n < length self.now.edges }
        ensures { (e : AnyEdge) → slice_get self.now.edges n ≡ Some e →
            IsLastTo self.now.edges e.to n result }
    {
        match self.into.before[n as usize] {
            0 => None,
            after => Some(after - 1),
        }
    }

    /// Leaves in `out` the places of the least siphon of a set of resources: the set itself, and
    /// each point from which a path that takes none of it reaches a release of one of it.
    ///
    /// `resources` names resources of the net, `out` has the size `places()`, and `work` has room
    /// for its points. A work list goes backwards over the edges, so that the time is linear in the
    /// points and edges. (Siphons and traps: Barkaoui and Pradat-Peyre, On Liveness and Controlled
    /// Siphons in Petri Nets.)
    pub fn least_siphon<S: PlaceSet>(&self, resources: u64, out: &mut S, work: &mut Work)
        requires named { NamesResources self.now resources }
        requires size { S.bound out.old ≡ length self.now.points + length self.now.tokens }
        requires room { length self.now.points ≤ work.old }
        ensures size { S.bound out.new ≡ S.bound out.old }
        ensures room { work.new ≡ work.old }
        ensures places { (place : ℕ) → IsTrue (S.places out.new place) ↔
            HasPlace (flow_net self.now) (members resources) place }
    {
        let points = self.flow.points.len();
        let row = &mut work.row.as_mut_slice()[..points];
        fill_siphon(&self.flow, &self.into, resources, out, row);
    }

    /// Leaves in `out` what `least_siphon` leaves, where a set of places is known in which the
    /// least siphon lies, as the union of those of the single resources is one. The work list never
    /// leaves the least siphon, so that the bound spares it nothing.
    pub fn least_siphon_within<S: PlaceSet>(
        &self,
        resources: u64,
        bound: &S,
        out: &mut S,
        work: &mut Work,
    )
        requires named { NamesResources self.now resources }
        requires sizes { S.bound bound.now ≡ length self.now.points + length self.now.tokens }
        requires within { (place : ℕ) → HasPlace (flow_net self.now) (members resources) place →
            IsTrue (S.places bound.now place) }
        requires size { S.bound out.old ≡ length self.now.points + length self.now.tokens }
        requires room { length self.now.points ≤ work.old }
        ensures size { S.bound out.new ≡ S.bound out.old }
        ensures room { work.new ≡ work.old }
        ensures places { (place : ℕ) → IsTrue (S.places out.new place) ↔
            HasPlace (flow_net self.now) (members resources) place }
    {
        let _ = bound;
        self.least_siphon(resources, out, work);
    }

    /// The hold-and-wait graph: row `r` is the set of the targets of resource `r`. There is an arc
    /// from `r` to `s` where some point holds `r` and an edge from it takes `s`, also by a try.
    /// Rows of no resource are empty.
    pub fn hold_wait(&self) -> [u64; 64]
        ensures { (r s : ℕ) → r < 64 → members (slice_index result r) s ≡
            arc (flow_net self.now) r s }
    {
        arcs(&self.flow)
    }

    /// The strong component of a resource, which is below `resources()`: itself, and each from
    /// which it is reached and which is reached from it by arcs of hold-and-wait.
    pub fn component(&self, r: u32) -> u64
        requires { r < length self.now.tokens }
        ensures { (s : ℕ) → IsTrue (members result s) ↔ InComponent (flow_net self.now) r s }
    {
        let mut rows = arcs(&self.flow);
        join_all(&mut rows);
        mutual(&rows, r)
    }

    /// Whether a line holds: its set is a nonempty one of the net's resources, its numbers are in
    /// the net, and at each point outside the set's least siphon the tokens held of the set, as
    /// often as the line says, are within its bound. A general line has its parts in order, and its
    /// parts in all sum up to less than as often the tokens of the set.
    ///
    /// `scratch` has the size `places()`, and `work` is for the net's points. What is left in
    /// `scratch` isn't said. (Place invariants: Moody and Antsaklis, Supervisory Control of
    /// Discrete Event Systems Using Petri Nets.)
    pub fn line_holds<S: PlaceSet>(&self, line: &Line, scratch: &mut S, work: &mut Work) -> bool
        requires size { S.bound scratch.old ≡ length self.now.points + length self.now.tokens }
        requires room { work.old ≡ length self.now.points }
        ensures size { S.bound scratch.new ≡ S.bound scratch.old }
        ensures room { work.new ≡ work.old }
        ensures holds { IsTrue result ↔ Holds (flow_net self.now) line.now }
    {
        let resources = line.resources;
        if !has_members(resources) || !are_below(resources, self.flow.tokens.len() as u32) {
            return false;
        }
        let tokens = measure(
            &self.flow,
            &self.into,
            resources,
            scratch,
            work.row.as_mut_slice(),
            work.sums.as_mut_slice(),
        );
        kind_holds(
            &self.flow,
            &line.kind,
            resources,
            tokens,
            work.sums.as_slice(),
        )
    }

    /// The first simple line that holds for a set: threads in ascending order, then guards, then
    /// monitors. It is `None` exactly where none holds.
    ///
    /// `resources` names resources of the net, `scratch` has the size `places()`, and `work` is for
    /// the net's points.
    pub fn first_line<S: PlaceSet>(
        &self,
        resources: u64,
        scratch: &mut S,
        work: &mut Work,
    ) -> Option<Line>
        requires named { NamesResources self.now resources }
        requires size { S.bound scratch.old ≡ length self.now.points + length self.now.tokens }
        requires room { work.old ≡ length self.now.points }
        ensures size { S.bound scratch.new ≡ S.bound scratch.old }
        ensures room { work.new ≡ work.old }
        ensures first { MatchOption result (IsBad (flow_net self.now) resources)
            (λ line. IsFirst (flow_net self.now) resources line) }
    {
        if !has_members(resources) {
            return None;
        }
        let tokens = measure(
            &self.flow,
            &self.into,
            resources,
            scratch,
            work.row.as_mut_slice(),
            work.sums.as_mut_slice(),
        );
        let kind = first_kind(&self.flow, resources, tokens, work.sums.as_slice())?;
        Some(Line { resources, kind })
    }

    /// The general line that says what a line says that holds: a general one itself, and else one
    /// with the factor 1 before the tokens held. The one error is want of memory.
    pub fn general(&self, alloc: Global, line: &Line) -> Result<Line, AllocError>
        requires { Holds (flow_net self.now) line.now }
        ensures same { IfOk result (λ general. general ≡ general_of (flow_net self.now) line.now) }
        ensures holds { IfOk result (λ general. Holds (flow_net self.now) general) }
    {
        let tokens = sum_of(self.flow.tokens.as_slice(), line.resources);
        let kind = general_kind(alloc, tokens, &line.kind)?;
        Ok(Line {
            resources: line.resources,
            kind,
        })
    }
}
