// Texts of schedules and inputs.

use c_meaning::{Event, EventKind};
use schedule_texts::{read_input, read_schedule};
use std::alloc::{AllocError, Global};

/// The longest text that is asked about, in bytes.
const LONGEST: usize = 1000000;

/// The most events that are written one by one.
const FEW: usize = 20;

/// Adds an event, as a schedule has it.
fn push_event(words: &mut String, alloc: Global, event: Event) -> Result<(), AllocError> {
    let thread = event.thread;
    let line = match event.kind {
        EventKind::Go => format!(in alloc; "{thread} go")?,
        EventKind::Choose(other) => format!(in alloc; "{thread} choose {other}")?,
        EventKind::Wake => format!(in alloc; "{thread} wake")?,
    };
    if !words.is_empty() {
        words.push_str(", ")?;
    }
    words.push_str(line.as_str())
}

/// Events, or how many they are.
fn events_of(alloc: Global, events: &[Event]) -> Result<String, AllocError> {
    if events.is_empty() {
        return String::from_str(alloc, "nothing");
    }
    if events.len() > FEW {
        return format!(in alloc; "{} events", events.len());
    }
    let mut words = String::new(alloc);
    for event in events {
        push_event(&mut words, alloc, *event)?;
    }
    Ok(words)
}

/// Numbers.
fn numbers_of(alloc: Global, numbers: &[i32]) -> Result<String, AllocError> {
    if numbers.is_empty() {
        return String::from_str(alloc, "nothing");
    }
    let mut words = String::new(alloc);
    for number in numbers {
        let word = format!(in alloc; "{number} ")?;
        words.push_str(word.as_str())?;
    }
    String::from_str(alloc, words.trim_end())
}

/// What a text is answered as a schedule.
pub fn schedule_read(alloc: Global, text: &[u8]) -> Result<String, AllocError> {
    if text.len() > LONGEST {
        return String::from_str(alloc, "too long to be asked about");
    }
    match read_schedule(alloc, text) {
        Ok(events) => events_of(alloc, events.as_slice()),
        Err(error) => format!(in alloc; "{error:?}"),
    }
}

/// What a text is answered as an input.
pub fn input_read(alloc: Global, text: &[u8]) -> Result<String, AllocError> {
    if text.len() > LONGEST {
        return String::from_str(alloc, "too long to be asked about");
    }
    match read_input(alloc, text) {
        Ok(numbers) => numbers_of(alloc, numbers.as_slice()),
        Err(error) => format!(in alloc; "{error:?}"),
    }
}
