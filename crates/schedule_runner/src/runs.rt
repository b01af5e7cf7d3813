// Runs by schedules.
ghost use Rattle.std.specs.Prelude.{◌≡◌, ◌<◌, ◌^◌, [], length, drop, IfOk, OnOk};
ghost use Rattle.c_meaning.specs.Shown.{shown};
ghost use Rattle.c_steps.specs.Kept.{IsStateOf};
ghost use Rattle.c_steps.specs.Model.{state_of};
ghost use Rattle.state_parts.specs.Accepted.{Accepted};
ghost use Rattle.state_parts.specs.Small.{AreSmall};
ghost use Rattle.c_check.specs.Tables.{numbers, numbers_of};
ghost use Rattle.schedule_runner.specs.Traces.{IsTrace, IsFollowed, EndsAt};

use crate::acts::{Line, act_line};
use c_check::Table;
use c_meaning::Event;
use c_steps::{State, Stepped};
use c_tree::{Program, Values};
use schedule_texts::Schedule;
use sqlite_items::Items;
use std::alloc::{AllocError, Global};

/// Lines, one for each event that was done.
pub type Acts = Items<Line>;

/// Why a run went no further.
#[derive(Clone, Copy, Debug, PartialEq, Eq)]
pub enum TraceEnd {
    /// All events of the schedule were done.
    All,
    /// The event of this number, counted from 1, isn't enabled.
    NotEnabled(u32),
    /// The event of this number, counted from 1, is undefined.
    Undefined(u32),
}

/// What is seen of a run.
#[derive(Debug, Drop)]
pub struct Trace {
    /// The lines of the events that were done.
    pub acts: Acts,
    /// Why there are no more.
    pub end: TraceEnd,
    /// Whether main has ended.
    pub ended: bool,
    /// The threads of the largest stuck set, thread `t` as the bit of value 2 to the power of `t`; 0 exactly where no
    /// set is stuck.
    pub stuck: u32,
}

/// What was appended to an output that had so many bytes.
fn behind(output: &[u8], before: usize) -> &[u8]
    ensures { result.now ≡ drop before output.now }
{
    match output.split_at_checked(before) {
        Some((_, printed)) => printed,
        None => &[],
    }
}

/// Does the events of a schedule one after the other, as far as each is done, and adds a line for each. The one error
/// is want of memory.
fn follow(
    alloc: Global,
    p: &Program,
    table: &Table,
    events: &[Event],
    state: &mut State,
    acts: &mut Acts,
) -> Result<TraceEnd, AllocError>
    requires few { length events.now < 2 ^ 31 }
    requires state { IsStateOf p.now state.old }
    requires none { acts.old ≡ [] }
    ensures kept { IsStateOf p.now state.new }
    ensures followed { OnOk result (IsFollowed (shown p.now) (numbers table.now) (state_of p.now state.old) events.now acts.new (state_of p.now state.new)) }
    ensures end { IfOk result (EndsAt (shown p.now) (state_of p.now state.new) events.now (length acts.new)) }
{
    for (k, event) in events.iter().enumerate() {
        let before = state.output().len();
        match state.step(p, *event) {
            Stepped::Done(did) => {
                let printed = behind(state.output(), before);
                acts.push(act_line(alloc, table, event.thread, did, printed)?)?;
            }
            Stepped::NotEnabled => return Ok(TraceEnd::NotEnabled(k as u32 + 1)),
            Stepped::Undefined => return Ok(TraceEnd::Undefined(k as u32 + 1)),
            Stepped::Memory => return Err(AllocError),
        }
    }
    Ok(TraceEnd::All)
}

/// Runs a program by a schedule, as far as each event is done in its turn: the lines of these events, why there are no
/// more, and what is seen of the last state. Numbers of the input that weren't read may be left. The one error is want
/// of memory.
///
/// The program is one that the rules accept, with numbers of 32 bits, and the table is the one that the rules gave
/// for it.
pub fn run(
    alloc: Global,
    p: &Program,
    table: &Table,
    schedule: &Schedule,
    input: Values,
) -> Result<Trace, AllocError>
    requires accepted { Accepted p.now }
    requires small { AreSmall p.now }
    requires table { numbers table.now ≡ numbers_of (shown p.now) }
    requires few { length schedule.now < 2 ^ 31 }
    ensures { IfOk result (IsTrace (shown p.now) (numbers_of (shown p.now)) input schedule.now) }
{
    let mut state = State::start(alloc, p, input)?;
    let mut acts = Acts::new(alloc);
    let end = follow(alloc, p, table, schedule.as_slice(), &mut state, &mut acts)?;
    Ok(Trace {
        acts,
        end,
        ended: state.ended(),
        stuck: state.largest_stuck(p),
    })
}
