// A trace as a text.
ghost use Rattle.std.specs.Prelude.{◌≡◌, ◌<◌, ◌++◌, OnOk, IfOk};
ghost use Rattle.c_meaning.specs.Closed as closed;
ghost use Rattle.answers.specs.Traced as spec;

use schedule_runner::{Line, Trace, TraceEnd};
use std::alloc::{AllocError, Global};

/// Writes lines, each with its line break.
fn put_lines(out: &mut Vec<u8>, lines: &[Line]) -> Result<(), AllocError>
    ensures { OnOk result (out.new.items ≡ out.old.items ++ spec.lined lines.now) }
{
    for line in lines {
        out.extend_from_slice(line.as_slice())?;
        out.push(b'\n')?;
    }
    Ok(())
}

/// Writes the number of the event that wasn't done, and why.
fn put_end(out: &mut Vec<u8>, alloc: Global, end: TraceEnd) -> Result<(), AllocError>
    ensures { OnOk result (out.new.items ≡ out.old.items ++ spec.end_text end) }
{
    let line = match end {
        TraceEnd::All => return Ok(()),
        TraceEnd::NotEnabled(number) => format!(in alloc; "event {number} not enabled\n")?,
        TraceEnd::Undefined(number) => format!(in alloc; "event {number} undefined\n")?,
    };
    out.extend_from_slice(line.as_bytes())
}

fn state_text(ended: bool) -> &'static [u8]
    ensures { result.now ≡ spec.state_text ended }
{
    if ended {
        b"state ended\n"
    } else {
        b"state running\n"
    }
}

/// Whether a thread is in a set.
fn has(set: u32, t: u32) -> bool
    requires { t < 32 }
    ensures { result ≡ closed.has set t }
{
    (set >> t) & 1 == 1
}

/// Writes a thread that is in a set, with a blank before it.
fn put_thread(out: &mut Vec<u8>, alloc: Global, set: u32, t: u32) -> Result<(), AllocError>
    requires { t < 32 }
    ensures { OnOk result (out.new.items ≡ out.old.items ++ spec.thread_text set t) }
{
    if !has(set, t) {
        return Ok(());
    }
    let word = format!(in alloc; " {t}")?;
    out.extend_from_slice(word.as_bytes())
}

/// Writes the threads of a set, each with a blank before it.
fn put_threads(out: &mut Vec<u8>, alloc: Global, set: u32) -> Result<(), AllocError>
    ensures { OnOk result (out.new.items ≡ out.old.items ++ spec.threads_text set 32) }
{
    for t in 0..32 {
        put_thread(out, alloc, set, t)?;
    }
    Ok(())
}

/// Writes the threads of the largest stuck set, or that there is none.
fn put_stuck(out: &mut Vec<u8>, alloc: Global, set: u32) -> Result<(), AllocError>
    ensures { OnOk result (out.new.items ≡ out.old.items ++ spec.stuck_text set) }
{
    if set == 0 {
        return out.extend_from_slice(b"stuck none\n");
    }
    out.extend_from_slice(b"stuck")?;
    put_threads(out, alloc, set)?;
    out.push(b'\n')?;
    Ok(())
}

/// The text of a trace: a line for each event that was done, one for the event that wasn't, whether main has
/// ended, and the threads of the largest stuck set. The one error is want of memory.
pub fn trace_text(alloc: Global, trace: &Trace) -> Result<Vec<u8>, AllocError>
    ensures { IfOk result (λ text. text.items ≡ spec.trace_text trace.now) }
{
    let mut out = Vec::new(alloc);
    put_lines(&mut out, trace.acts.as_slice())?;
    put_end(&mut out, alloc, trace.end)?;
    out.extend_from_slice(state_text(trace.ended))?;
    put_stuck(&mut out, alloc, trace.stuck)?;
    Ok(out)
}
