// The points of programs.
ghost use Rattle.c_canonical.specs.ShapedPrograms.{ShapedProgram};
ghost use Rattle.c_tree.specs.Lined.{bare_program, program_of};
ghost use Rattle.state_parts.specs.Accepted.{Accepted};
ghost use Rattle.state_parts.specs.Small.{AreSmall};

use crate::report::Report;
use accepted_texts::accepted;
use c_check::{Table, check};
use c_tree::{Mode, Program};
use context_walk::{ContextError, resolve};
use edges::{Edge, EdgeOp, Point};
use flow_graph::flow_of;
use outline_pieces::{FlowError, FlowParts};
use std::alloc::{AllocError, Global};

/// The most functions of a program that is asked about.
const MOST: usize = 1000000;

/// What comes of asking for the flow of a text.
#[derive(Drop)]
enum Found {
    /// The text spells a program that has these points and edges, and these names.
    Flow(FlowParts, Table),
    /// There is no flow, and this says why.
    Refused(String),
}

/// The flow of a program, or why it has none, in words.
pub fn flow_in(alloc: Global, p: &Program) -> Result<Result<FlowParts, String>, AllocError>
    requires accepted { Accepted p.now }
    requires small { AreSmall p.now }
    requires shaped { ShapedProgram (bare_program (program_of p.now)) }
{
    let contexts = match resolve(alloc, p) {
        Ok(contexts) => contexts,
        Err(ContextError::Memory) => return Err(AllocError),
        Err(error) => return Ok(Err(format!(in alloc; "{error:?}")?)),
    };
    match flow_of(alloc, p, &contexts) {
        Ok(flow) => Ok(Ok(flow)),
        Err(FlowError::Memory) => Err(AllocError),
        Err(error) => Ok(Err(format!(in alloc; "{error:?}")?)),
    }
}

/// The numbers of a program that is accepted. None where it is too large to be asked about, and
/// where memory is wanted.
pub fn numbers_of(alloc: Global, p: &Program) -> Option<Table> {
    if p.functions.len() >= MOST {
        return None;
    }
    check(alloc, p, Mode::Any).ok()
}

/// Asks for the flow of a text.
fn flow_for(alloc: Global, text: &[u8]) -> Result<Found, AllocError> {
    let Some(p) = accepted(alloc, text) else {
        return Ok(Found::Refused(String::from_str(alloc, "no program")?));
    };
    let Some(table) = numbers_of(alloc, &p) else {
        return Ok(Found::Refused(String::from_str(alloc, "too large to be asked about")?));
    };
    match flow_in(alloc, &p)? {
        Ok(flow) => Ok(Found::Flow(flow, table)),
        Err(error) => Ok(Found::Refused(error)),
    }
}

/// How a resource is written.
fn name_of(alloc: Global, table: &Table, resource: u32) -> Result<String, AllocError> {
    let name = table.write_name(alloc, resource)?;
    String::from_str(alloc, str::from_utf8(name.as_slice()).unwrap_or("no text"))
}

/// How many tokens are held of each resource of which some are, as `a:1 gd[0]:2`, or `-`.
fn tokens(alloc: Global, table: &Table, held: &[u32]) -> Result<String, AllocError> {
    let mut words = String::new(alloc);
    for (resource, count) in held.iter().enumerate() {
        if *count > 0 {
            let resource = u32::try_from(resource).unwrap_or(u32::MAX);
            let name = name_of(alloc, table, resource)?;
            words.push_str(format!(in alloc; " {}:{count}", name.as_str())?.as_str())?;
        }
    }
    if words.is_empty() {
        words.push('-')?;
    }
    String::from_str(alloc, words.trim_start())
}

/// What is done along an edge, and where it leads.
fn way(alloc: Global, table: &Table, edge: &Edge) -> Result<String, AllocError> {
    let (word, resource) = match edge.op {
        EdgeOp::Plain => return format!(in alloc; "plain -> {}", edge.to),
        EdgeOp::Acquire(resource) => ("acquire", resource),
        EdgeOp::Try(resource) => ("try", resource),
        EdgeOp::Reacquire(resource) => ("reacquire", resource),
        EdgeOp::Release(resource) => ("release", resource),
    };
    let name = name_of(alloc, table, resource)?;
    format!(in alloc; "{word} {} -> {}", name.as_str(), edge.to)
}

/// The edges from a point, or that there is none.
fn ways(alloc: Global, table: &Table, edges: &[Edge], from: usize) -> Result<String, AllocError> {
    let mut words = String::new(alloc);
    for edge in edges {
        if edge.from as usize == from {
            if !words.is_empty() {
                words.push_str(", ")?;
            }
            words.push_str(way(alloc, table, edge)?.as_str())?;
        }
    }
    if words.is_empty() {
        words.push_str("no edge")?;
    }
    Ok(words)
}

/// A point: its number, its thread, its line, whether the thread waits for a signal there, what the
/// thread holds, and the edges from there.
fn point_line(
    alloc: Global,
    table: &Table,
    edges: &[Edge],
    number: usize,
    point: &Point,
) -> Result<String, AllocError> {
    let waiting = if point.waiting { " waiting" } else { "" };
    let held = tokens(alloc, table, point.held.as_slice())?;
    let ways = ways(alloc, table, edges, number)?;
    format!(in alloc;
        "{number} t{} line {}{waiting} [{}] {}",
        point.thread,
        point.line,
        held.as_str(),
        ways.as_str()
    )
}

/// Compares the points of a flow with the lines of a row.
fn judge_lines(
    alloc: Global,
    table: &Table,
    flow: &FlowParts,
    block: &str,
    report: &mut Report,
) -> Result<(), AllocError> {
    let mut lines = block.lines();
    for (number, point) in flow.points.as_slice().iter().enumerate() {
        let answer = point_line(alloc, table, flow.edges.as_slice(), number, point)?;
        let wanted = lines.next().unwrap_or("no point");
        report.compare(alloc, answer.as_str(), answer.as_str(), wanted)?;
    }
    Ok(())
}

/// Compares the points of a text with a row: how many there are, and each of them where the row has lines.
pub fn judge_points(
    alloc: Global,
    text: &[u8],
    rest: &str,
    wanted: &str,
    block: &str,
    report: &mut Report,
) -> Result<(), AllocError> {
    match flow_for(alloc, text)? {
        Found::Flow(flow, table) => {
            let count = format!(in alloc; "{}", flow.points.len())?;
            report.compare(alloc, rest, count.as_str(), wanted)?;
            if block.is_empty() {
                return Ok(());
            }
            judge_lines(alloc, &table, &flow, block, report)
        }
        Found::Refused(error) => report.compare(alloc, rest, error.as_str(), wanted),
    }
}

/// Compares what is answered to a text that is asked for its flow.
pub fn judge_flow(
    alloc: Global,
    text: &[u8],
    rest: &str,
    wanted: &str,
    report: &mut Report,
) -> Result<(), AllocError> {
    match flow_for(alloc, text)? {
        Found::Flow(_, _) => report.compare(alloc, rest, "Flow", wanted),
        Found::Refused(error) => report.compare(alloc, rest, error.as_str(), wanted),
    }
}
