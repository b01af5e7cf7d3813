// Nets of threads that lock and unlock.

use crate::items::{fields, number};
use edges::{Edge, EdgeOp, Point};
use flow_checks::is_flow;
use gadara_net::{Flow, Net};
use sqlite_items::Items;
use std::alloc::{AllocError, Global};

/// Adds a lock of each mutex of a nest, as `0 2` for mutex 0 and inside it mutex 2, and unlocks from the last to the
/// first. Whether they are some.
fn add_nest(ops: &mut Vec<EdgeOp>, nest: &str) -> Result<bool, AllocError> {
    let first = ops.len();
    for word in nest.split_whitespace() {
        match number(word) {
            Some(mutex) => ops.push(EdgeOp::Acquire(mutex))?,
            None => return Ok(false),
        }
    }
    for at in (first..ops.len()).rev() {
        if let Some(EdgeOp::Acquire(mutex)) = ops.get(at).copied() {
            ops.push(EdgeOp::Release(mutex))?;
        }
    }
    Ok(true)
}

/// What a thread does, as `0 2, 1 2` for one nest and then another, if it is some.
fn ops_of(alloc: Global, text: &str) -> Result<Option<Vec<EdgeOp>>, AllocError> {
    let mut ops = Vec::new(alloc);
    for nest in text.split(", ") {
        if !add_nest(&mut ops, nest)? {
            return Ok(None);
        }
    }
    Ok(Some(ops))
}

/// What is held behind an operation.
fn count_behind(op: EdgeOp, mutex: u32, count: u32) -> u32 {
    if op.takes(mutex) {
        return count.saturating_add(1);
    }
    if op.gives(mutex) {
        return count.saturating_sub(1);
    }
    count
}

/// The counts behind an operation.
fn behind(alloc: Global, op: EdgeOp, held: &[u32]) -> Result<Vec<u32>, AllocError> {
    let mut counts = Vec::new(alloc);
    for (mutex, count) in held.iter().enumerate() {
        let mutex = mutex.min(u32::MAX as usize) as u32;
        counts.push(count_behind(op, mutex, *count))?;
    }
    Ok(counts)
}

/// Adds a point of a thread. Answers its number.
fn add_point(flow: &mut Flow, thread: u32, held: Vec<u32>) -> Result<u32, AllocError> {
    let at = flow.points.len().min(u32::MAX as usize) as u32;
    let point = Point {
        thread,
        line: 1,
        waiting: false,
        held: Items::from_vec(held),
    };
    flow.points.push(point)?;
    Ok(at)
}

/// Adds a point for each operation of a thread, with an edge to the next one, and a last point.
fn add_thread(
    alloc: Global,
    flow: &mut Flow,
    thread: u32,
    ops: &[EdgeOp],
) -> Result<(), AllocError> {
    let mut held = vec![in alloc; 0u32; flow.tokens.len()]?;
    for op in ops {
        let next = behind(alloc, *op, held.as_slice())?;
        let from = add_point(flow, thread, held)?;
        let to = from.saturating_add(1);
        flow.edges.push(Edge { from, to, op: *op })?;
        held = next;
    }
    add_point(flow, thread, held)?;
    Ok(())
}

/// The net of threads that lock and unlock, if it is one: how many mutexes there are, and a field for each thread, as
/// `3 ~ 0 1, 1 2 ~ 2 0`.
pub fn net_of_locks(alloc: Global, text: &str) -> Result<Option<Net>, AllocError> {
    let (mutexes, threads) = fields(text);
    let Some(mutexes) = number(mutexes) else {
        return Ok(None);
    };
    let mut flow = Flow {
        threads: 0,
        mutexes,
        tokens: Items::from_vec(vec![in alloc; 1u32; mutexes as usize]?),
        points: Items::new(alloc),
        edges: Items::new(alloc),
    };
    for thread in threads.unwrap_or("").split(" ~ ") {
        let Some(ops) = ops_of(alloc, thread)? else {
            return Ok(None);
        };
        let number = flow.threads;
        flow.threads = number.saturating_add(1);
        add_thread(alloc, &mut flow, number, ops.as_slice())?;
    }
    if !is_flow(&flow) {
        return Ok(None);
    }
    Ok(Some(Net::net(alloc, flow)?))
}
