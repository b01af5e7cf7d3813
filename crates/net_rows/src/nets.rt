// Nets that a table writes.

use crate::items::{fields, number, worded};
use edges::{Counts, Edge, EdgeOp, Point};
use flow_checks::is_flow;
use gadara_net::{Flow, Net};
use sqlite_items::Items;
use std::alloc::{AllocError, Global};

/// The operation of a word on a resource.
fn op_of(word: &str, resource: u32) -> Option<EdgeOp> {
    match word {
        "acquire" => Some(EdgeOp::Acquire(resource)),
        "try" => Some(EdgeOp::Try(resource)),
        "reacquire" => Some(EdgeOp::Reacquire(resource)),
        "release" => Some(EdgeOp::Release(resource)),
        _ => None,
    }
}

/// An edge from a point, as `plain 3` to point 3 or `acquire 0 3`, which takes a token of resource 0.
fn edge_of(from: u32, text: &str) -> Option<Edge> {
    let (word, rest) = worded(text);
    if word == "plain" {
        let to = number(rest)?;
        let op = EdgeOp::Plain;
        return Some(Edge { from, to, op });
    }
    let (resource, to) = worded(rest);
    let op = op_of(word, number(resource)?)?;
    let to = number(to)?;
    Some(Edge { from, to, op })
}

/// Sets the count of a resource, as `2:1`, where it has one.
fn set_count(held: &mut [u32], word: &str) -> Option<()> {
    let (resource, count) = word.split_once(':')?;
    let resource = number(resource)? as usize;
    let count = number(count)?;
    if resource >= held.len() {
        return None;
    }
    held[resource] = count;
    Some(())
}

/// A point, as `1 8 0:1` for thread 1 at line 8 with one token of resource 0. Behind the line may stand `waiting`.
fn point_of(alloc: Global, resources: usize, text: &str) -> Result<Option<Point>, AllocError> {
    let (thread, rest) = worded(text);
    let (line, rest) = worded(rest);
    let (Some(thread), Some(line)) = (number(thread), number(line)) else {
        return Ok(None);
    };
    let mut held = vec![in alloc; 0u32; resources]?;
    let mut waiting = false;
    for word in rest.split_whitespace() {
        if word == "waiting" {
            waiting = true;
        } else if set_count(held.as_mut_slice(), word).is_none() {
            return Ok(None);
        }
    }
    let held = Items::from_vec(held);
    Ok(Some(Point {
        thread,
        line,
        waiting,
        held,
    }))
}

/// Adds the edges that leave the last point. Whether they are some.
fn add_edges(flow: &mut Flow, from: u32, text: &str) -> Result<bool, AllocError> {
    for edge in text.split(" ~ ") {
        match edge_of(from, edge) {
            Some(edge) => flow.edges.push(edge)?,
            None => return Ok(false),
        }
    }
    Ok(true)
}

/// Adds a point and the edges that leave it, as `1 8 0:1 ~ try 1 9 ~ plain 11`. Whether they are some.
fn add_point(alloc: Global, flow: &mut Flow, text: &str) -> Result<bool, AllocError> {
    let (point, edges) = fields(text);
    let Some(point) = point_of(alloc, flow.tokens.len(), point)? else {
        return Ok(false);
    };
    let from = flow.points.len().min(u32::MAX as usize) as u32;
    flow.points.push(point)?;
    match edges {
        Some(edges) => add_edges(flow, from, edges),
        None => Ok(true),
    }
}

/// The tokens of mutexes and monitors: one of each mutex, and behind them those that are written.
fn tokens_of(alloc: Global, mutexes: u32, text: &str) -> Result<Option<Counts>, AllocError> {
    let mut tokens = Items::from_vec(vec![in alloc; 1u32; mutexes as usize]?);
    for word in text.split_whitespace() {
        match number(word) {
            Some(count) => tokens.push(count)?,
            None => return Ok(None),
        }
    }
    Ok(Some(tokens))
}

/// What a net is made from: its numbers, as `3 2` for three threads and two mutexes, and a line for each point.
fn flow_of(alloc: Global, numbers: &str, lines: &str) -> Result<Option<Flow>, AllocError> {
    let (threads, rest) = worded(numbers);
    let (mutexes, monitors) = worded(rest);
    let (Some(threads), Some(mutexes)) = (number(threads), number(mutexes)) else {
        return Ok(None);
    };
    let Some(tokens) = tokens_of(alloc, mutexes, monitors)? else {
        return Ok(None);
    };
    let mut flow = Flow {
        threads,
        mutexes,
        tokens,
        points: Items::new(alloc),
        edges: Items::new(alloc),
    };
    for line in lines.lines() {
        if !add_point(alloc, &mut flow, line)? {
            return Ok(None);
        }
    }
    Ok(Some(flow))
}

/// The net that a row writes, if it writes one.
pub fn net_of(alloc: Global, numbers: &str, lines: &str) -> Result<Option<Net>, AllocError> {
    let Some(flow) = flow_of(alloc, numbers, lines)? else {
        return Ok(None);
    };
    if !is_flow(&flow) {
        return Ok(None);
    }
    Ok(Some(Net::net(alloc, flow)?))
}
