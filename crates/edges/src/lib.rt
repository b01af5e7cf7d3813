//! The points of a threaded program's control flow, and the edges between them.
//!
//! A point is a place of one thread at which control can stand. An edge leads from a point to a
//! next one, and its operation says which token of a resource, a mutex or a monitor, is taken or
//! given back on the way.
#![tactic(auto)]

ghost use Rattle.std.specs.Prelude.{◌≡◌, IfOk};
ghost use Rattle.edges.specs.Ops.{takes, blocks, gives};

use sqlite_items::Items;
use std::alloc::{AllocError, Global};

/// What going along an edge does to the tokens of a resource.
#[derive(Clone, Copy, Debug, PartialEq, Eq)]
pub enum EdgeOp {
    /// Nothing.
    Plain,
    /// Takes a token of the resource, and waits while none is free: `pthread_mutex_lock`, or a
    /// take of a monitor.
    Acquire(u32),
    /// Takes a token of the resource that was free: a `pthread_mutex_trylock` that succeeds.
    Try(u32),
    /// Takes the mutex of a wait again, once it is free: the end of a `pthread_cond_wait`.
    Reacquire(u32),
    /// Gives a token of the resource back.
    Release(u32),
}

/// An edge from a point to a next one of the same thread.
#[derive(Clone, Copy, Debug, PartialEq, Eq)]
pub struct Edge {
    /// The number of the point that it leaves.
    pub from: u32,
    /// The number of the point that it leads to.
    pub to: u32,
    /// What is taken or given on the way.
    pub op: EdgeOp,
}

/// Edges in order.
pub type Edges = Items<Edge>;

/// A number for each resource, in the order of the resources.
pub type Counts = Items<u32>;

/// A point of a thread.
#[derive(Debug, Drop)]
pub struct Point {
    /// The thread.
    pub thread: u32,
    /// The line, from 1, of the statement that is done next.
    pub line: u32,
    /// Whether the thread waits here for a signal.
    pub waiting: bool,
    /// How many tokens of each resource the thread holds here.
    pub held: Counts,
}

/// Points in the order of their numbers.
pub type Points = Items<Point>;

impl EdgeOp {
    /// Whether a token of the resource is taken.
    pub fn takes(self, resource: u32) -> bool
        ensures { result ≡ takes self resource }
    {
        match self {
            EdgeOp::Acquire(r) | EdgeOp::Try(r) | EdgeOp::Reacquire(r) => r == resource,
            EdgeOp::Plain | EdgeOp::Release(_) => false,
        }
    }

    /// Whether a thread waits here while no token of the resource is free.
    pub fn blocks(self, resource: u32) -> bool
        ensures { result ≡ blocks self resource }
    {
        match self {
            EdgeOp::Acquire(r) | EdgeOp::Reacquire(r) => r == resource,
            EdgeOp::Plain | EdgeOp::Try(_) | EdgeOp::Release(_) => false,
        }
    }

    /// Whether a token of the resource is given back.
    pub fn gives(self, resource: u32) -> bool
        ensures { result ≡ gives self resource }
    {
        match self {
            EdgeOp::Release(r) => r == resource,
            EdgeOp::Plain | EdgeOp::Acquire(_) | EdgeOp::Try(_) | EdgeOp::Reacquire(_) => false,
        }
    }
}

impl Point {
    /// An equal point. The one error is want of memory.
    pub fn copy(&self, alloc: Global) -> Result<Point, AllocError>
        ensures { IfOk result (λ p. p ≡ self.now) }
    {
        Ok(Point {
            thread: self.thread,
            line: self.line,
            waiting: self.waiting,
            held: Items::from_slice(alloc, self.held.as_slice())?,
        })
    }
}
