// The command `run`.
ghost use Rattle.std.specs.Prelude.{◌≡◌, ◌<◌, ◌^◌, length, IfOk, MatchResult};
ghost use Rattle.schedule_texts.specs.Schedules as schedules;
ghost use Rattle.schedule_texts.specs.Inputs as inputs;
ghost use Rattle.answers.specs.Refusing.{Ends, Declines};
ghost use Rattle.answers.specs.Run as spec;

use crate::answer::Answer;
use crate::program::{limited, read_program, refused};
use crate::refusal::Refusal;
use crate::status::Status;
use crate::traced::trace_text;
use c_tree::{Mode, Values};
use schedule_runner::{Trace, TraceEnd, run};
use schedule_texts::{InputError, Schedule, ScheduleError, read_input, read_schedule};
use spelled_numbers::spelled_is_small;
use std::alloc::{AllocError, Global};

/// A file that was read.
#[derive(Clone, Copy)]
pub struct File<'a> {
    /// Its name.
    pub name: &'a str,
    /// Its contents.
    pub bytes: &'a [u8],
}

/// The events of a schedule.
fn read_events(alloc: Global, file: File) -> Result<Schedule, Refusal>
    requires { length file.bytes.now < 2 ^ 31 }
    ensures { MatchResult result (schedules.IsSchedule file.entry.bytes.now) (Declines (spec.schedule_flaws file.entry.name.now file.entry.bytes.now)) }
{
    match read_schedule(alloc, file.bytes) {
        Ok(schedule) => Ok(schedule),
        Err(ScheduleError::BadEvent { line }) => Err(refused(
            alloc,
            file.name,
            line,
            "not an event",
        )),
        Err(ScheduleError::TooLong) => Err(limited(alloc, file.name, "events", 100000)),
        Err(ScheduleError::Memory) => Err(Refusal::Memory),
    }
}

/// The numbers of an input.
fn read_numbers(alloc: Global, file: File) -> Result<Values, Refusal>
    requires { length file.bytes.now < 2 ^ 31 }
    ensures { MatchResult result (inputs.AreNumbers (schedules.lines_of file.entry.bytes.now)) (Declines (spec.input_flaws file.entry.name.now file.entry.bytes.now)) }
{
    match read_input(alloc, file.bytes) {
        Ok(input) => Ok(input),
        Err(InputError::BadInput { line }) => Err(refused(alloc, file.name, line, "not a number")),
        Err(InputError::Memory) => Err(Refusal::Memory),
    }
}

/// What is answered of a trace.
fn told_of(alloc: Global, trace: &Trace) -> Result<Answer, AllocError>
    ensures { IfOk result (λ answer. answer ≡ spec.traced_answer trace.now) }
{
    let status = match trace.end {
        TraceEnd::All => Status::Done,
        TraceEnd::NotEnabled(_) | TraceEnd::Undefined(_) => Status::No,
    };
    Ok(Answer::new(status, trace_text(alloc, trace)?))
}

/// What `run` answers of a program, a schedule and an input: the trace of the longest front of the schedule that
/// is a run of the program on the input.
pub fn run_files(
    alloc: Global,
    program: File,
    schedule: File,
    input: File,
) -> Result<Answer, Refusal>
    requires program { length program.bytes.now < 2 ^ 31 }
    requires schedule { length schedule.bytes.now < 2 ^ 31 }
    requires input { length input.bytes.now < 2 ^ 31 }
    ensures { Ends (spec.causes
        (record { program = program.entry.name.now; schedule = schedule.entry.name.now; input = input.entry.name.now })
        (record { program = program.entry.bytes.now; schedule = schedule.entry.bytes.now; input = input.entry.bytes.now })) result }
{
    let read = read_program(alloc, program.name, program.bytes, Mode::Any)?;
    let events = read_events(alloc, schedule)?;
    let values = read_numbers(alloc, input)?;
    spelled_is_small();
    let trace = run(alloc, &read.program, &read.table, &events, values)?;
    Ok(told_of(alloc, &trace)?)
}
