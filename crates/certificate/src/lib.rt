//! Certificates: lines that bound how many tokens of sets of resources threads hold, each outside
//! the set's least siphon.
#![tactic(auto)]

ghost use Rattle.std.specs.Prelude.{◌≡◌, IfOk};

use sqlite_items::Items;
use std::alloc::{AllocError, Global};

/// A bound on the tokens that are held of the members of a set, as a place invariant gives one
/// (after Moody and Antsaklis, Supervisory Control of Discrete Event Systems Using Petri Nets).
#[derive(Debug, Drop)]
pub struct Line {
    /// The set, as a mask: bit `r` says whether resource `r` is a member.
    pub resources: u64,
    /// The bound.
    pub kind: LineKind,
}

/// What bounds the tokens that are held of the members of a set.
#[derive(Debug, Drop)]
pub enum LineKind {
    /// One thread alone holds them, and never all.
    Thread(u32),
    /// They are held under a resource of one token, and never all.
    Guard(u32),
    /// They are held under tokens of a monitor that has fewer.
    Monitor(u32),
    /// They are held under tokens of several resources and threads.
    General {
        /// What the number of tokens that are held is multiplied by.
        times: u64,
        /// The resources and threads, in ascending order, resources first.
        parts: Parts,
    },
}

/// A resource or a thread that a general line counts, and how often.
#[derive(Clone, Copy, Debug, PartialEq, Eq)]
pub struct Part {
    /// What is counted.
    pub of: PartOf,
    /// How often, from 1.
    pub factor: u64,
}

/// What a general line counts.
#[derive(Clone, Copy, Debug, PartialEq, Eq)]
pub enum PartOf {
    /// The tokens of a resource that are held.
    Resource(u32),
    /// A thread: 1 at its points.
    Thread(u32),
}

/// Parts in order.
pub type Parts = Items<Part>;

/// Lines in order.
pub type Lines = Items<Line>;

/// Lines that are to show that no circle of blocked threads can arise.
#[derive(Debug, Drop)]
pub struct Certificate {
    /// The lines.
    pub lines: Lines,
}

impl LineKind {
    /// An equal kind. The one error is want of memory.
    pub fn copy(&self, alloc: Global) -> Result<LineKind, AllocError>
        ensures { IfOk result (λ k. k ≡ self.now) }
    {
        match self {
            LineKind::Thread(i) => Ok(LineKind::Thread(*i)),
            LineKind::Guard(g) => Ok(LineKind::Guard(*g)),
            LineKind::Monitor(c) => Ok(LineKind::Monitor(*c)),
            LineKind::General { times, parts } => Ok(LineKind::General {
                times: *times,
                parts: Items::from_slice(alloc, parts.as_slice())?,
            }),
        }
    }
}

impl Line {
    /// An equal line. The one error is want of memory.
    pub fn copy(&self, alloc: Global) -> Result<Line, AllocError>
        ensures { IfOk result (λ l. l ≡ self.now) }
    {
        Ok(Line {
            resources: self.resources,
            kind: self.kind.copy(alloc)?,
        })
    }
}
