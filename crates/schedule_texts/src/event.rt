// Words and lines of schedules.
ghost use Rattle.std.specs.Prelude.{◌≡◌, ◌≢◌, IfSome, IfNone, IfOk, List, ℕ, map};
ghost use Rattle.schedule_texts.specs.Events.{WordsSpell, KindSpelled};
ghost use Rattle.schedule_texts.specs.Schedules.{LineIs};

use crate::pieces::words;
use crate::thread::thread_of;
use c_meaning::{Event, EventKind};
use std::alloc::{AllocError, Global};

/// What a line of a schedule says.
#[derive(Clone, Copy, Debug, PartialEq, Eq)]
pub enum Line {
    /// Nothing.
    Silent,
    /// That this event happens.
    Says(Event),
    /// Something that is no event.
    Bad,
}

/// What words say that happens to a thread.
fn kind_of(words: &[&[u8]]) -> Option<EventKind>
    ensures some { IfSome result (λ kind. KindSpelled (map (λ w. w.now) words.now) kind) }
    ensures none { IfNone result ((kind : EventKind) → ¬ KindSpelled (map (λ w. w.now) words.now) kind) }
{
    match words {
        [word] if *word == b"go".as_slice() => Some(EventKind::Go),
        [word] if *word == b"wake".as_slice() => Some(EventKind::Wake),
        [word, other] if *word == b"choose".as_slice() => {
            Some(EventKind::Choose(thread_of(*other)?))
        }
        _ => None,
    }
}

/// The event that words spell.
fn event_of(words: &[&[u8]]) -> Option<Event>
    ensures some { IfSome result (λ e. WordsSpell (map (λ w. w.now) words.now) e) }
    ensures none { IfNone result ((e : Event) → ¬ WordsSpell (map (λ w. w.now) words.now) e) }
{
    let [thread, rest @ ..] = words else {
        return None;
    };
    let kind = kind_of(rest)?;
    let thread = thread_of(*thread)?;
    Some(Event { thread, kind })
}

/// What a line says. The one error is want of memory.
pub fn line_of(alloc: Global, line: &[u8]) -> Result<Line, AllocError>
    ensures { IfOk result (LineIs line.now) }
{
    if line.is_empty() || line[0] == b'#' {
        return Ok(Line::Silent);
    }
    Ok(match event_of(&words(alloc, line)?) {
        Some(event) => Line::Says(event),
        None => Line::Bad,
    })
}
