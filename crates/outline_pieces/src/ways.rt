// The ways out of places, from the last place to the first.
ghost use Rattle.std.specs.Prelude.{◌≡◌, OnOk, IfOk};
ghost use Rattle.edges.specs.declared.EdgeOp.TheVariants.{Plain};
ghost use Rattle.outline_pieces.specs.Backward as spec;

use crate::pieces::{Piece, Place, op_tried};
use crate::stack::Stack;
use edges::{Edge, EdgeOp, Edges};
use sqlite_items::Items;
use std::alloc::{AllocError, Global};
use std::mem;

/// How far a walk back has come.
#[derive(Debug, Drop)]
pub struct Ways {
    /// The edges, that of the least point on top.
    pub edges: Stack<Edge>,
    /// The number of the point that comes next.
    pub next: u32,
    /// The number of the point to which the function is left.
    pub back: u32,
    /// For each arms and each loop that ended the number of the point that comes behind, or where
    /// the second arm begins, and for each called body that ended where its caller is left to.
    pub behind: Stack<u32>,
}

impl Ways {
    fn new(alloc: Global) -> Ways
        ensures { result ≡ spec.start }
    {
        Ways {
            edges: Stack::new(alloc),
            next: 0,
            back: 0,
            behind: Stack::new(alloc),
        }
    }

    /// An edge in front of the others. The one error is want of memory.
    fn lead(&mut self, from: u32, op: EdgeOp, to: u32) -> Result<(), AllocError>
        ensures { OnOk result (self.new ≡ spec.led from op to self.old) }
    {
        self.edges.push(Edge { from, to, op })
    }

    /// Keeps a number. The one error is want of memory.
    fn keep(&mut self, point: u32) -> Result<(), AllocError>
        ensures { OnOk result (self.new ≡ spec.kept point self.old) }
    {
        self.behind.push(point)
    }

    /// Takes the number that was kept last away.
    fn take(&mut self) -> u32
        ensures number { result ≡ spec.newest self.old.behind }
        ensures rest { self.new ≡ spec.without self.old }
    {
        self.behind.pop().unwrap_or(0)
    }

    /// Comes to a point with one way on. The one error is want of memory.
    fn pass(&mut self, point: u32, op: EdgeOp) -> Result<(), AllocError>
        ensures { OnOk result (self.new ≡ spec.passed point op self.old) }
    {
        self.lead(point, op, self.next)?;
        self.next = point;
        Ok(())
    }

    /// Comes to a point with two ways on. The one error is want of memory.
    fn fork(&mut self, point: u32, op: EdgeOp) -> Result<(), AllocError>
        ensures { OnOk result (self.new ≡ spec.forked point op self.old) }
    {
        let other = self.take();
        self.lead(point, EdgeOp::Plain, other)?;
        self.pass(point, op)
    }

    /// Comes from the second arm to the first. The one error is want of memory.
    fn turn(&mut self) -> Result<(), AllocError>
        ensures { OnOk result (self.new ≡ spec.turned self.old) }
    {
        let behind = self.take();
        let second = mem::replace(&mut self.next, behind);
        self.keep(second)
    }

    /// Comes to the call of a body. The one error is want of memory.
    fn call(&mut self, point: u32) -> Result<(), AllocError>
        ensures { OnOk result (self.new ≡ spec.called point self.old) }
    {
        self.back = self.take();
        self.pass(point, EdgeOp::Plain)
    }

    /// Comes to the end of a body. The one error is want of memory.
    fn end_call(&mut self) -> Result<(), AllocError>
        ensures { OnOk result (self.new ≡ spec.returned self.old) }
    {
        self.keep(self.back)?;
        self.back = self.next;
        Ok(())
    }

    /// Comes to where a function is left. The one error is want of memory.
    fn leave(&mut self, point: u32) -> Result<(), AllocError>
        ensures { OnOk result (self.new ≡ spec.at point (spec.led point Plain self.old.back self.old)) }
    {
        self.lead(point, EdgeOp::Plain, self.back)?;
        self.next = point;
        Ok(())
    }

    /// Comes to where a thread begins, which is a point but for the first thread. The one error is
    /// want of memory.
    fn begin(&mut self, thread: u32, point: u32) -> Result<(), AllocError>
        ensures { OnOk result (self.new ≡ spec.begun thread point self.old) }
    {
        if thread > 0 {
            self.pass(point, EdgeOp::Plain)?;
        }
        Ok(())
    }

    /// Comes in front of a place. The one error is want of memory.
    fn step(&mut self, place: Place) -> Result<(), AllocError>
        ensures { OnOk result (self.new ≡ spec.step place self.old) }
    {
        let point = place.at;
        match place.piece {
            Piece::Begin { .. } => self.begin(place.thread, point)?,
            Piece::Pass { deed, .. } => self.pass(point, deed.op())?,
            Piece::Fork { tried, .. } => self.fork(point, op_tried(tried))?,
            Piece::Loop { .. } => self.fork(point, EdgeOp::Plain)?,
            Piece::Inner { .. } => self.call(point)?,
            Piece::Leave { .. } => self.leave(point)?,
            Piece::Else => self.turn()?,
            Piece::ArmsEnd => self.keep(self.next)?,
            Piece::LoopEnd => {
                self.keep(self.next)?;
                self.next = point;
            }
            Piece::InnerEnd => self.end_call()?,
            Piece::Finish { .. } => {
                self.next = point;
                self.back = point;
            }
        }
        Ok(())
    }
}

/// The edges between the points of places, in the order of their points. The one error is want of
/// memory.
pub fn edges_between(alloc: Global, places: Items<Place>) -> Result<Edges, AllocError>
    ensures { IfOk result (λ edges. edges ≡ (spec.over spec.start places).edges) }
{
    let mut places = places;
    let mut ways = Ways::new(alloc);
    while let Some(place) = places.pop() {
        ways.step(place)?;
    }
    let Ways { edges, .. } = ways;
    Ok(edges.into_items())
}
