// Texts of schedules.
ghost use Rattle.std.specs.Prelude.{◌≡◌, ◌<◌, ◌^◌, length};
ghost use Rattle.schedule_texts.specs.Schedules.{Answers};

use crate::event::{Line, line_of};
use crate::pieces::lines;
use c_meaning::Event;
use sqlite_items::Items;
use std::alloc::{AllocError, Global};
use thiserror::Error;

/// Events in the order in which they are to happen.
pub type Schedule = Items<Event>;

/// The most events of a schedule.
pub const LONGEST: usize = 100000;

/// Why a text is no schedule.
#[derive(Clone, Copy, Debug, PartialEq, Eq, Error)]
pub enum ScheduleError {
    /// This line, counted from 1, is the first that says something and no event.
    #[error("line {line}: not an event")]
    BadEvent {
        /// The line.
        line: u32,
    },
    /// More than [`LONGEST`] events stand before any line that is no event.
    #[error("more than 100000 events")]
    TooLong,
    /// There isn't enough memory.
    #[error("out of memory")]
    Memory,
}

impl From<AllocError> for ScheduleError {
    ghost use Rattle.schedule_texts.specs.declared.schedule.ScheduleError.TheVariants.{Memory};

    ghost from_gives = { λ _ e. e ≡ Memory };

    fn from(_: AllocError) -> ScheduleError {
        ScheduleError::Memory
    }
}

/// The schedule that a text spells, or what is wrong with it: the first line that is no event, or too many events
/// before any such line. Want of memory alone is free.
pub fn read_schedule(alloc: Global, text: &[u8]) -> Result<Schedule, ScheduleError>
    requires { length text.now < 2 ^ 31 }
    ensures { Answers text.now result }
{
    let lines = lines(alloc, text)?;
    let mut events = Schedule::new(alloc);
    for (k, line) in lines.iter().enumerate() {
        match line_of(alloc, *line)? {
            Line::Silent => {}
            Line::Says(_) if events.len() == LONGEST => return Err(ScheduleError::TooLong),
            Line::Says(event) => events.push(event)?,
            Line::Bad => return Err(ScheduleError::BadEvent { line: k as u32 + 1 }),
        }
    }
    Ok(events)
}
