// Lines that a table writes.

use crate::items::{number, worded};
use certificate::{LineKind, Part, PartOf, Parts};
use sqlite_items::Items;
use std::alloc::{AllocError, Global};

/// A set of resources, as `0 2`, if they have bits.
pub fn mask_of(text: &str) -> Option<u64> {
    let mut mask = 0u64;
    for word in text.split_whitespace() {
        match number(word) {
            Some(r) if r < 64 => mask |= 1 << r,
            _ => return None,
        }
    }
    Some(mask)
}

/// A part, as `resource 2 1` for resource 2 with the factor 1.
fn part_of(text: &str) -> Option<Part> {
    let (word, rest) = worded(text);
    let (member, factor) = worded(rest);
    let member = number(member)?;
    let factor = factor.parse::<u64>().ok()?;
    let of = match word {
        "resource" => PartOf::Resource(member),
        "thread" => PartOf::Thread(member),
        _ => return None,
    };
    Some(Part { of, factor })
}

/// A general kind, of its multiplier and parts, as `2, resource 2 1, thread 0 3`.
fn general_of(alloc: Global, text: &str) -> Result<Option<LineKind>, AllocError> {
    let (times, rest) = text.split_once(", ").unwrap_or((text, ""));
    let Ok(times) = times.parse::<u64>() else {
        return Ok(None);
    };
    let mut parts: Parts = Items::new(alloc);
    for part in rest.split(", ") {
        match part_of(part) {
            Some(part) => parts.push(part)?,
            None if rest.is_empty() => {}
            None => return Ok(None),
        }
    }
    Ok(Some(LineKind::General { times, parts }))
}

/// The kind of a line, as `thread 1`, `guard 2`, `monitor 3` or `times 2, resource 2 1, thread 0 3`.
pub fn kind_of(alloc: Global, text: &str) -> Result<Option<LineKind>, AllocError> {
    let (word, rest) = worded(text);
    if word == "times" {
        return general_of(alloc, rest);
    }
    let Some(member) = number(rest) else {
        return Ok(None);
    };
    Ok(match word {
        "thread" => Some(LineKind::Thread(member)),
        "guard" => Some(LineKind::Guard(member)),
        "monitor" => Some(LineKind::Monitor(member)),
        _ => None,
    })
}

/// Writes a part as it is read.
fn written_part(alloc: Global, part: Part) -> Result<String, AllocError> {
    let factor = part.factor;
    match part.of {
        PartOf::Resource(r) => format!(in alloc; ", resource {r} {factor}"),
        PartOf::Thread(i) => format!(in alloc; ", thread {i} {factor}"),
    }
}

/// Writes a kind as it is read.
pub fn written(alloc: Global, kind: &LineKind) -> Result<String, AllocError> {
    match kind {
        LineKind::Thread(i) => format!(in alloc; "thread {i}"),
        LineKind::Guard(g) => format!(in alloc; "guard {g}"),
        LineKind::Monitor(c) => format!(in alloc; "monitor {c}"),
        LineKind::General { times, parts } => {
            let mut text = format!(in alloc; "times {times}")?;
            for part in parts.as_slice() {
                text.push_str(written_part(alloc, *part)?.as_str())?;
            }
            Ok(text)
        }
    }
}
