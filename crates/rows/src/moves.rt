// Runs of programs beside their points.
ghost use Rattle.c_steps.specs.Kept.{IsStateOf};
ghost use Rattle.state_parts.specs.Accepted.{Accepted};

use crate::flows::{flow_in, numbers_of};
use crate::items::{fields, worded};
use crate::report::Report;
use crate::runs::{event, inputs};
use crate::standing::Standing;
use accepted_texts::accepted;
use c_meaning::{Event, EventKind};
use c_steps::{State, Stepped};
use c_tree::Program;
use std::alloc::{AllocError, Global};

/// Keeps the points of each thread that agree with what it is blocked for. The one error is want of memory.
fn compare_blocked(
    alloc: Global,
    state: &State,
    p: &Program,
    standing: &mut Standing<'_>,
) -> Result<(), AllocError>
    requires accepted { Accepted p.now }
    requires state { IsStateOf p.now state.now }
{
    if state.ended() {
        return Ok(());
    }
    for thread in 0..standing.threads() {
        standing.narrow(alloc, thread, state.blocked_on(p, thread))?;
    }
    Ok(())
}

/// Does an event, and goes along with it. The one error is want of memory.
fn step_beside(
    alloc: Global,
    state: &mut State,
    p: &Program,
    standing: &mut Standing<'_>,
    event: Event,
) -> Result<Stepped, AllocError>
    requires accepted { Accepted p.now }
    requires state { IsStateOf p.now state.old }
    ensures { IsStateOf p.now state.new }
{
    let came = state.step(p, event);
    if let Stepped::Done(did) = came {
        standing.follow(alloc, event.thread, did)?;
        compare_blocked(alloc, state, p, standing)?;
    }
    Ok(came)
}

/// An event for a number, of so many threads: mostly that one goes.
fn event_for(number: u32, threads: u32) -> Option<Event> {
    let mixed = number.wrapping_mul(2654435761) / 65536;
    let kind = match number.checked_rem(7)? {
        5 => EventKind::Choose((mixed / 64).checked_rem(threads)?),
        6 => EventKind::Wake,
        _ => EventKind::Go,
    };
    Some(Event {
        thread: mixed.checked_rem(threads)?,
        kind,
    })
}

/// Tries so many events, and says after how many of them a thread can't stand anywhere, if one can't.
/// The one error is want of memory.
fn try_events(
    alloc: Global,
    state: &mut State,
    p: &Program,
    standing: &mut Standing<'_>,
    count: u32,
) -> Result<String, AllocError>
    requires accepted { Accepted p.now }
    requires state { IsStateOf p.now state.old }
    ensures { IsStateOf p.now state.new }
{
    for k in 0..count {
        if let Some(event) = event_for(k, standing.threads()) {
            step_beside(alloc, state, p, standing, event)?;
        }
        if let Some(thread) = standing.lost() {
            return format!(in alloc; "{thread} is lost at event {k}");
        }
    }
    String::from_str(alloc, "all stand")
}

/// Does what is asked, in words. The one error is want of memory.
fn said(
    alloc: Global,
    state: &mut State,
    p: &Program,
    standing: &mut Standing<'_>,
    asked: &str,
) -> Result<String, AllocError>
    requires accepted { Accepted p.now }
    requires state { IsStateOf p.now state.old }
    ensures { IsStateOf p.now state.new }
{
    let (word, words) = worded(asked);
    if word == "ended" {
        return format!(in alloc; "{}", state.ended());
    }
    if word == "try" {
        let count = words.parse::<u32>().unwrap_or(0);
        return try_events(alloc, state, p, standing, count);
    }
    let Some(event) = event(word, words) else {
        return String::from_str(alloc, "no question");
    };
    let came = step_beside(alloc, state, p, standing, event)?;
    let points = standing.words(alloc)?;
    format!(in alloc; "{came:?} ~ {}", points.as_str())
}

/// Does what a line says, and compares what comes of it, and where the threads may stand then. The one
/// error is want of memory.
fn judge_line(
    alloc: Global,
    state: &mut State,
    p: &Program,
    standing: &mut Standing<'_>,
    line: &str,
    report: &mut Report,
) -> Result<(), AllocError>
    requires accepted { Accepted p.now }
    requires state { IsStateOf p.now state.old }
    ensures { IsStateOf p.now state.new }
{
    let (asked, wanted) = fields(line);
    let came = said(alloc, state, p, standing, asked)?;
    report.compare(alloc, line, came.as_str(), wanted.unwrap_or(""))
}

/// Does what the lines of a row say, one after the other. The one error is want of memory.
fn judge_lines(
    alloc: Global,
    state: &mut State,
    p: &Program,
    standing: &mut Standing<'_>,
    block: &str,
    report: &mut Report,
) -> Result<(), AllocError>
    requires accepted { Accepted p.now }
    requires state { IsStateOf p.now state.old }
    ensures { IsStateOf p.now state.new }
{
    for line in block.lines() {
        judge_line(alloc, state, p, standing, line, report)?;
    }
    Ok(())
}

/// Runs a text with an input, beside its points. Whether it is a program that has points. The one error
/// is want of memory.
pub fn judge_moves(
    alloc: Global,
    text: &[u8],
    input: &str,
    block: &str,
    report: &mut Report,
) -> Result<bool, AllocError> {
    let input = inputs(alloc, input)?;
    let Some(p) = accepted(alloc, text) else {
        return Ok(false);
    };
    let Some(table) = numbers_of(alloc, &p) else {
        return Ok(false);
    };
    let Ok(flow) = flow_in(alloc, &p)? else {
        return Ok(false);
    };
    let mut standing = Standing::new(alloc, &p, &flow, table.mutexes())?;
    let mut state = State::start(alloc, &p, input)?;
    judge_lines(alloc, &mut state, &p, &mut standing, block, report)?;
    Ok(true)
}
