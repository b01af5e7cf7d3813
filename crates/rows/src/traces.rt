// Traces of runs by schedules.

use crate::report::Report;
use crate::runs::members;
use accepted_texts::accepted;
use c_check::check;
use c_tree::Mode;
use schedule_runner::{Trace, run};
use schedule_texts::{LONGEST, read_input, read_schedule};
use std::alloc::{AllocError, Global};

/// The longest text that is asked about, in bytes.
const LONG: usize = 1000000;

/// The texts of a program, a schedule and an input.
#[derive(Clone, Copy)]
pub struct Texts<'a> {
    /// The program.
    pub program: &'a [u8],
    /// The schedule.
    pub schedule: &'a [u8],
    /// The input.
    pub input: &'a [u8],
}

/// The trace of a program by a schedule on an input, where each of the texts is one.
fn trace_of(alloc: Global, texts: Texts) -> Result<Option<Trace>, AllocError> {
    if texts.schedule.len() > LONG || texts.input.len() > LONG {
        return Ok(None);
    }
    let Some(p) = accepted(alloc, texts.program) else {
        return Ok(None);
    };
    let Ok(schedule) = read_schedule(alloc, texts.schedule) else {
        return Ok(None);
    };
    let Ok(input) = read_input(alloc, texts.input) else {
        return Ok(None);
    };
    if schedule.len() > LONGEST || p.functions.len() >= LONG {
        return Ok(None);
    }
    match check(alloc, &p, Mode::Any) {
        Ok(table) => Ok(Some(run(alloc, &p, &table, &schedule, input)?)),
        Err(_) => Ok(None),
    }
}

/// The lines of a trace, and one that says how it ended and what is seen then.
fn written(alloc: Global, trace: &Trace) -> Result<String, AllocError> {
    let mut text = String::new(alloc);
    for line in trace.acts.as_slice() {
        text.push_str(str::from_utf8(line.as_slice()).unwrap_or("no text"))?;
        text.push('\n')?;
    }
    let stuck = members(alloc, trace.stuck)?;
    let end = format!(in alloc; "{:?}, ended {}, stuck {stuck}\n", trace.end, trace.ended)?;
    text.push_str(end.as_str())?;
    Ok(text)
}

/// Compares a trace with the lines of a row. Whether there is one.
pub fn judge_trace(
    alloc: Global,
    texts: Texts,
    row: &str,
    block: &str,
    report: &mut Report,
) -> Result<bool, AllocError> {
    match trace_of(alloc, texts)? {
        Some(trace) => {
            let text = written(alloc, &trace)?;
            report.compare(alloc, row, text.as_str(), block)?;
            Ok(true)
        }
        None => Ok(false),
    }
}
