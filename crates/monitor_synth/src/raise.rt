// Numbers that are raised along followed edges, against their direction.
ghost use Rattle.std.specs.Prelude.{◌≡◌, ℕ, ◌<◌, ◌≤◌, length, slice_index, All, IsTrue, OnOk};
ghost use Rattle.net_laws.specs.Net.{HasEdge};
ghost use Rattle.gadara_net.specs.Flows.{flow_net};
ghost use Rattle.weight_laws.specs.Weights.{follows};
ghost use Rattle.monitor_synth.specs.Raised.{AreReached, IsSettled, AreSettledBut, HaveRisen, work_left};

use crate::followed::is_followed;
use edges::Edge;
use gadara_net::Net;
use std::alloc::AllocError;

/// Raises the number of the point that a followed edge leaves to the one behind it, where that is
/// greater, and puts the point among those to be done.
fn raise(
    n: &Net,
    edge: Edge,
    level: u64,
    moved: &mut [u64],
    todo: &mut Vec<u32>,
) -> Result<(), AllocError>
    requires edge { HasEdge (flow_net n.now) edge }
    requires each { length moved.old ≡ length n.now.points }
    requires level { slice_index moved.old edge.to ≡ level }
    requires below { All (λ p. p < length n.now.points) todo.old.items }
    ensures source { OnOk result (IsTrue (follows (flow_net n.now) edge) →
        level ≤ slice_index moved.new edge.from) }
    ensures stays { OnOk result ((p : ℕ) → level ≤ slice_index moved.old p →
        slice_index moved.new p ≡ slice_index moved.old p) }
    ensures risen { OnOk result (HaveRisen (slice_index moved.old) (slice_index moved.new)
        todo.old.items todo.new.items) }
    ensures reached { OnOk result ((w : ℕ → ℕ) →
        AreReached (flow_net n.now) w (slice_index moved.old) →
        AreReached (flow_net n.now) w (slice_index moved.new)) }
    ensures below { OnOk result (All (λ p. p < length n.now.points) todo.new.items) }
    ensures less { OnOk result (work_left moved.new todo.new.items ≤
        work_left moved.old todo.old.items) }
{
    n.keeps_flow();
    let from = edge.from as usize;
    if level <= moved[from] {
        return Ok(());
    }
    if !is_followed(n, edge) {
        return Ok(());
    }
    todo.push(edge.from)?;
    moved[from] = level;
    Ok(())
}

/// Raises the numbers of the points from which followed edges lead to a point, as far as that
/// one's.
fn raise_before(
    n: &Net,
    point: u32,
    moved: &mut [u64],
    todo: &mut Vec<u32>,
) -> Result<(), AllocError>
    requires point { point < length n.now.points }
    requires each { length moved.old ≡ length n.now.points }
    requires below { All (λ p. p < length n.now.points) todo.old.items }
    ensures settled { OnOk result (IsSettled (flow_net n.now) (slice_index moved.new) point) }
    ensures risen { OnOk result (HaveRisen (slice_index moved.old) (slice_index moved.new)
        todo.old.items todo.new.items) }
    ensures reached { OnOk result ((w : ℕ → ℕ) →
        AreReached (flow_net n.now) w (slice_index moved.old) →
        AreReached (flow_net n.now) w (slice_index moved.new)) }
    ensures below { OnOk result (All (λ p. p < length n.now.points) todo.new.items) }
    ensures less { OnOk result (work_left moved.new todo.new.items ≤
        work_left moved.old todo.old.items) }
{
    let level = moved[point as usize];
    let mut next = n.last_edge_to(point);
    while let Some(k) = next {
        raise(n, n.edge(k), level, moved, todo)?;
        next = n.edge_before(k);
    }
    Ok(())
}

/// Raises numbers until none is below one behind a followed edge.
pub fn raise_all(n: &Net, moved: &mut [u64], todo: &mut Vec<u32>) -> Result<(), AllocError>
    requires each { length moved.old ≡ length n.now.points }
    requires below { All (λ p. p < length n.now.points) todo.old.items }
    requires settled { AreSettledBut (flow_net n.now) (slice_index moved.old) todo.old.items }
    ensures reached { OnOk result ((w : ℕ → ℕ) →
        AreReached (flow_net n.now) w (slice_index moved.old) →
        AreReached (flow_net n.now) w (slice_index moved.new)) }
    ensures settled { OnOk result ((p : ℕ) →
        IsSettled (flow_net n.now) (slice_index moved.new) p) }
{
    while let Some(point) = todo.pop() {
        raise_before(n, point, moved, todo)?;
    }
    Ok(())
}
