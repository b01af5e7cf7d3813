// What is found of certificates, and candidates in order.

use crate::answers::{members, trimmed};
use crate::lines::{kind_of, mask_of};
use candidates::Candidates;
use certificate::{Certificate, Line};
use certificate_check::{CheckFault, Verdict, check};
use gadara_net::Net;
use sqlite_items::Items;
use std::alloc::{AllocError, Global};
use std::io;
use std::time::{Duration, Instant};

/// The line that a text writes, as `0 1 by thread 1`, if it writes one.
fn line_of(alloc: Global, text: &str) -> Result<Option<Line>, AllocError> {
    let (resources, kind) = text.split_once(" by ").unwrap_or((text, ""));
    let kind = kind_of(alloc, kind)?;
    Ok(match (mask_of(resources), kind) {
        (Some(resources), Some(kind)) => Some(Line { resources, kind }),
        _ => None,
    })
}

/// The certificate that a text writes, if it writes one: its lines stand between semicolons.
fn certificate_of(alloc: Global, text: &str) -> Result<Option<Certificate>, AllocError> {
    let mut lines = Items::new(alloc);
    for line in text.split("; ") {
        match line_of(alloc, line)? {
            Some(line) => lines.push(line)?,
            None if text.is_empty() => {}
            None => return Ok(None),
        }
    }
    Ok(Some(Certificate { lines }))
}

/// Words before the members of a set.
fn named(alloc: Global, words: &str, resources: u64) -> Result<String, AllocError> {
    let members = members(alloc, "", resources)?;
    let text = format!(in alloc; "{words}: {members}")?;
    trimmed(alloc, text.as_str())
}

/// An answer in words.
fn spelled(alloc: Global, answer: Result<Verdict, CheckFault>) -> Result<String, AllocError> {
    match answer {
        Ok(Verdict::LineFails { index }) => format!(in alloc; "line {index} fails"),
        Ok(Verdict::NotCovered { resources }) => named(alloc, "not covered", resources),
        Ok(Verdict::Valid) => String::from_str(alloc, "valid"),
        Err(CheckFault::ComponentTooLarge { resources }) => named(alloc, "too large", resources),
        Err(CheckFault::Memory) => String::from_str(alloc, "no memory"),
    }
}

/// What is found of a certificate.
pub fn checked(alloc: Global, net: &Net, text: &str) -> Result<String, AllocError> {
    match certificate_of(alloc, text)? {
        Some(certificate) if certificate.lines.len() < 1 << 31 => {
            spelled(alloc, check(alloc, net, &certificate))
        }
        _ => String::from_str(alloc, "no certificate"),
    }
}

/// The candidates of the net in order.
pub fn listed(alloc: Global, net: &Net) -> Result<String, AllocError> {
    let candidates = Candidates::new(net);
    let mut text = String::new(alloc);
    let mut at = 0;
    while let Some(next) = candidates.next_after(at) {
        text.push_str(if at == 0 { "" } else { "; " })?;
        text.push_str(members(alloc, "", next)?.as_str().trim_end())?;
        at = next;
    }
    Ok(text)
}

/// How long so many checks of a certificate take. It is read before.
pub fn checks(rt: &HostRuntime, net: &Net, text: &str, times: u32) -> io::Result<Duration> {
    let start = Instant::now(rt)?;
    if let Some(certificate) = certificate_of(rt.alloc(), text)?
        && certificate.lines.len() < 1 << 31
    {
        for _ in 0..times {
            let _ = check(rt.alloc(), net, &certificate);
        }
    }
    start.elapsed(rt)
}
