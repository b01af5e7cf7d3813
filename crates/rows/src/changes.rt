// Texts with one token changed.

use crate::report::Report;
use crate::said::read;
use std::alloc::{AllocError, Global};

/// Tokens that are parted by single blanks, and what stands before and behind them.
#[derive(Clone, Copy)]
pub struct Sample<'a> {
    /// Line 1.
    pub before: &'a [u8],
    /// The tokens, of which the k-th stands on line k + 1.
    pub tokens: &'a str,
    /// What stands behind them.
    pub behind: &'a [u8],
    /// Where one token is missing, the next one fails; but for these, given by the token and by the line that is
    /// Syntax, or by 0 where the text is read.
    pub missing: &'a str,
}

/// What stands in place of a token.
#[derive(Clone, Copy, Debug, PartialEq, Eq)]
enum Change {
    /// The token, and all behind it is missing.
    Cut,
    /// The token is missing.
    Missing,
    /// A keyword without any place in the grammar stands there.
    Wrong,
}

/// The text of a sample with one token changed, counted from 1; the whole of it where there is no such token.
fn changed(
    alloc: Global,
    sample: Sample,
    place: u32,
    change: Change,
) -> Result<Vec<u8>, AllocError> {
    let mut text = Vec::from_slice(alloc, sample.before)?;
    text.push(b'\n')?;
    let mut at = 0u32;
    for token in sample.tokens.split(' ') {
        at = at.saturating_add(1);
        let token = match change {
            _ if at != place => token,
            Change::Cut => return Ok(text),
            Change::Missing => "",
            Change::Wrong => "break",
        };
        text.extend_from_slice(token.as_bytes())?;
        text.push(b'\n')?;
    }
    text.extend_from_slice(sample.behind)?;
    Ok(text)
}

/// The line that is told of a token that is missing, if one is.
fn told(missing: &str, place: u32) -> Option<u32> {
    for pair in missing.split(' ') {
        if let Some((token, line)) = pair.split_once(':') {
            if token.parse::<u32>() == Ok(place) {
                return line.parse::<u32>().ok();
            }
        }
    }
    None
}

/// What is to be answered, in words.
fn wanted(alloc: Global, sample: Sample, place: u32, change: Change) -> Result<String, AllocError> {
    let usual = match change {
        Change::Missing => place.saturating_add(2),
        Change::Cut | Change::Wrong => place.saturating_add(1),
    };
    let line = match change {
        Change::Missing => told(sample.missing, place).unwrap_or(usual),
        Change::Cut | Change::Wrong => usual,
    };
    if line == 0 {
        String::from_str(alloc, "Read")
    } else {
        format!(in alloc; "Syntax({line})")
    }
}

/// Compares what is answered to one change.
fn judge_change(
    alloc: Global,
    sample: Sample,
    place: u32,
    change: Change,
    report: &mut Report,
) -> Result<(), AllocError> {
    let text = changed(alloc, sample, place, change)?;
    let answer = read(alloc, text.as_slice())?;
    let wanted = wanted(alloc, sample, place, change)?;
    let row = format!(in alloc; "{change:?} {place} of {}", sample.tokens)?;
    report.compare(alloc, row.as_str(), answer.as_str(), wanted.as_str())
}

/// Compares what is answered to the whole, and to each change of each token. That a text ends before its
/// first token says nothing.
pub fn judge_changes(alloc: Global, sample: Sample, report: &mut Report) -> Result<(), AllocError> {
    let whole = changed(alloc, sample, 0, Change::Cut)?;
    let answer = read(alloc, whole.as_slice())?;
    report.compare(alloc, sample.tokens, answer.as_str(), "Read")?;
    let mut place = 0u32;
    for _ in sample.tokens.split(' ') {
        place = place.saturating_add(1);
        if place != 1 {
            judge_change(alloc, sample, place, Change::Cut, report)?;
        }
        judge_change(alloc, sample, place, Change::Missing, report)?;
        judge_change(alloc, sample, place, Change::Wrong, report)?;
    }
    Ok(())
}
