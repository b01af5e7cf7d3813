// Runs of programs.
ghost use Rattle.c_steps.specs.Kept.{IsStateOf};
ghost use Rattle.state_parts.specs.Accepted.{Accepted};

use crate::items::{fields, worded};
use crate::report::Report;
use crate::texts::{Names, spelled};
use accepted_texts::accepted;
use c_meaning::{Did, Event, EventKind};
use c_steps::{State, Stepped};
use c_tree::{Program, Values};
use std::alloc::{AllocError, Global};

/// The number of a word.
fn number(word: &str) -> u32 {
    word.parse::<u32>().unwrap_or(u32::MAX)
}

/// The event that words say, if they say one.
pub fn event(word: &str, words: &str) -> Option<Event> {
    let (thread, other) = worded(words);
    let kind = match word {
        "go" => EventKind::Go,
        "wake" => EventKind::Wake,
        "choose" => EventKind::Choose(number(other)),
        _ => return None,
    };
    Some(Event {
        thread: number(thread),
        kind,
    })
}

/// The first of so many steps of main that isn't one, in words, or how many there were.
fn steps(alloc: Global, state: &mut State, p: &Program, count: u32) -> Result<String, AllocError>
    requires { IsStateOf p.now state.old }
    ensures { IsStateOf p.now state.new }
{
    let go = Event {
        thread: 0,
        kind: EventKind::Go,
    };
    for k in 0..count {
        let came = state.step(p, go);
        if came != Stepped::Done(Did::Step) {
            return format!(in alloc; "{came:?} at step {k}");
        }
    }
    format!(in alloc; "{count} steps")
}

/// The threads of a set, in ascending order, or `none`.
pub fn members(alloc: Global, set: u32) -> Result<String, AllocError> {
    let mut words = String::new(alloc);
    for t in 0..32u32 {
        if set >> t & 1 == 1 {
            let word = format!(in alloc; "{t} ")?;
            words.push_str(word.as_str())?;
        }
    }
    if set == 0 {
        words.push_str("none")?;
    }
    String::from_str(alloc, words.trim_end())
}

/// What is seen of a state, in words, if the word asks for something.
fn seen(alloc: Global, state: &State, p: &Program, word: &str) -> Result<String, AllocError>
    requires accepted { Accepted p.now }
    requires state { IsStateOf p.now state.now }
{
    match word {
        "ended" => format!(in alloc; "{}", state.ended()),
        "stuck" => members(alloc, state.largest_stuck(p)),
        "blocked" => {
            let blocked = [
                state.blocked_on(p, 0),
                state.blocked_on(p, 1),
                state.blocked_on(p, 2),
                state.blocked_on(p, 3),
            ];
            format!(in alloc; "{blocked:?}")
        }
        _ => String::from_str(alloc, "no question"),
    }
}

/// Compares what was printed with a text.
fn judge_output(
    alloc: Global,
    names: &Names,
    state: &State,
    line: &str,
    field: &str,
    report: &mut Report,
) -> Result<(), AllocError> {
    match spelled(alloc, names, field)? {
        Some(text) => report.compare_bytes(alloc, line, state.output(), text.as_slice()),
        None => report.unread(alloc, line),
    }
}

/// Does an event, and says what came of it.
fn stepped(
    alloc: Global,
    state: &mut State,
    p: &Program,
    event: Event,
) -> Result<String, AllocError>
    requires { IsStateOf p.now state.old }
    ensures { IsStateOf p.now state.new }
{
    let came = state.step(p, event);
    format!(in alloc; "{came:?}")
}

/// Does what is asked, or says what is seen, in words.
fn said(alloc: Global, state: &mut State, p: &Program, asked: &str) -> Result<String, AllocError>
    requires accepted { Accepted p.now }
    requires state { IsStateOf p.now state.old }
    ensures { IsStateOf p.now state.new }
{
    let (word, words) = worded(asked);
    match event(word, words) {
        Some(event) => stepped(alloc, state, p, event),
        None if word == "main" => steps(alloc, state, p, number(words)),
        None => seen(alloc, state, p, word),
    }
}

/// Does what a line says, and compares what comes of it.
fn judge_line(
    alloc: Global,
    names: &Names,
    state: &mut State,
    p: &Program,
    line: &str,
    report: &mut Report,
) -> Result<(), AllocError>
    requires accepted { Accepted p.now }
    requires state { IsStateOf p.now state.old }
    ensures { IsStateOf p.now state.new }
{
    let (asked, wanted) = fields(line);
    if asked == "output" {
        return judge_output(alloc, names, state, line, wanted.unwrap_or(""), report);
    }
    let came = said(alloc, state, p, asked)?;
    report.compare(alloc, line, came.as_str(), wanted.unwrap_or(""))
}

/// Does what the lines of a row say, one after the other.
fn judge_lines(
    alloc: Global,
    names: &Names,
    state: &mut State,
    p: &Program,
    block: &str,
    report: &mut Report,
) -> Result<(), AllocError>
    requires accepted { Accepted p.now }
    requires state { IsStateOf p.now state.old }
    ensures { IsStateOf p.now state.new }
{
    for line in block.lines() {
        judge_line(alloc, names, state, p, line, report)?;
    }
    Ok(())
}

/// The numbers of words.
pub fn inputs(alloc: Global, words: &str) -> Result<Values, AllocError> {
    let mut input = Values::new(alloc);
    for word in words.split_whitespace() {
        input.push(word.parse::<i32>().unwrap_or(0))?;
    }
    Ok(input)
}

/// Runs a text with an input. Whether it is a program that may be started, with room for it.
pub fn judge_run(
    alloc: Global,
    names: &Names,
    text: &[u8],
    input: &str,
    block: &str,
    report: &mut Report,
) -> Result<bool, AllocError> {
    let input = inputs(alloc, input)?;
    let Some(p) = accepted(alloc, text) else {
        return Ok(false);
    };
    let mut state = State::start(alloc, &p, input)?;
    judge_lines(alloc, names, &mut state, &p, block, report)?;
    Ok(true)
}
