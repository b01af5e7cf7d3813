// Which pieces control reaches, and the numbers of their points.
ghost use Rattle.std.specs.Prelude.{◌≡◌, ◌+◌, ◌<◌, ◌^◌, OnOk, OnErr, IfOk};
ghost use Rattle.outline_pieces.specs.Courses as spec;

use crate::pieces::{Piece, Place};
use crate::stack::Stack;
use std::alloc::{AllocError, Global};

/// Arms, a loop or a body that began and haven't ended.
#[derive(Clone, Copy, Debug, PartialEq, Eq)]
pub struct Open {
    /// Whether control reaches where they begin.
    pub reached: bool,
    /// The number of the point where they begin.
    pub at: u32,
    /// Whether control goes on behind them, whatever comes until they end.
    pub passed: bool,
}

/// How far pieces have come.
#[derive(Debug, Drop)]
pub struct Course {
    /// What is open, the innermost on top.
    pub around: Stack<Open>,
    /// Whether control reaches the next piece.
    pub reached: bool,
    /// The number of the next point.
    pub next: u32,
    /// The number of the thread.
    pub thread: u32,
}

impl Course {
    pub fn new(alloc: Global) -> Course
        ensures { result ≡ spec.start }
    {
        Course {
            around: Stack::new(alloc),
            reached: false,
            next: 0,
            thread: 0,
        }
    }

    /// Comes to a point, if control reaches it.
    fn count(&mut self)
        requires { self.old.next + 1 < 2 ^ 32 }
        ensures { self.new ≡ spec.counted self.old }
    {
        if self.reached {
            self.next += 1;
        }
    }

    /// The piece at the next point.
    fn place_now(&self, piece: Piece) -> Place
        ensures { result ≡ spec.place_now self.now piece }
    {
        Place {
            thread: self.thread,
            at: self.next,
            piece,
        }
    }

    /// The piece at the next point, if control reaches it.
    fn place(&self, piece: Piece) -> Option<Place>
        ensures { result ≡ spec.place_here self.now piece }
    {
        self.reached.then_some(self.place_now(piece))
    }

    /// The piece that goes on with what is open, or ends it, if control reached where that began.
    fn place_of(&self, opened: Open, piece: Piece) -> Option<Place>
        ensures { result ≡ spec.place_of self.now opened piece }
    {
        opened.reached.then_some(Place {
            thread: self.thread,
            at: opened.at,
            piece,
        })
    }

    /// Comes to a piece that opens others. The one error is want of memory.
    fn enter(&mut self, passed: bool) -> Result<(), AllocError>
        requires { self.old.next + 1 < 2 ^ 32 }
        ensures entered { OnOk result (self.new ≡ spec.entered passed self.old) }
        ensures next { OnErr result (self.new.next ≡ self.old.next) }
        ensures thread { OnErr result (self.new.thread ≡ self.old.thread) }
    {
        self.around.push(Open {
            reached: self.reached,
            at: self.next,
            passed: passed && self.reached,
        })?;
        self.count();
        Ok(())
    }

    /// Comes from the first arm to the second. The one error is want of memory.
    fn turn(&mut self, piece: Piece) -> Result<Option<Place>, AllocError>
        ensures place { IfOk result (λ place. place ≡ spec.place_at self.old.around self.old piece) }
        ensures turned { OnOk result (self.new ≡ spec.turned self.old.around self.old) }
        ensures next { OnErr result (self.new.next ≡ self.old.next) }
        ensures thread { OnErr result (self.new.thread ≡ self.old.thread) }
    {
        let Some(opened) = self.around.pop() else {
            return Ok(None);
        };
        let passed = self.reached;
        self.reached = opened.reached;
        self.around.push(Open { passed, ..opened })?;
        Ok(self.place_of(opened, piece))
    }

    /// Comes to the end of what is open.
    fn close(&mut self, piece: Piece) -> Option<Place>
        ensures place { result ≡ spec.place_at self.old.around self.old piece }
        ensures closed { self.new ≡ spec.closed self.old.around self.old }
    {
        let opened = self.around.pop()?;
        self.reached = opened.passed || self.reached;
        self.place_of(opened, piece)
    }

    /// Comes to where a thread begins, which is a point but for the first thread.
    fn begin(&mut self)
        requires { self.old.next + 1 < 2 ^ 32 }
        ensures { self.new ≡ spec.begun self.old }
    {
        if self.thread > 0 {
            self.next += 1;
        }
        self.reached = true;
    }

    /// Comes to where a thread ends.
    fn finish(&mut self)
        requires next { self.old.next + 1 < 2 ^ 32 }
        requires thread { self.old.thread + 1 < 2 ^ 32 }
        ensures { self.new ≡ spec.finished self.old }
    {
        self.next += 1;
        self.thread += 1;
        self.reached = false;
    }

    /// Comes to a piece, and gives what is kept of it. The one error is want of memory, and then the
    /// numbers stay.
    pub fn take(&mut self, piece: Piece) -> Result<Option<Place>, AllocError>
        requires next { self.old.next + 1 < 2 ^ 32 }
        requires thread { self.old.thread + 1 < 2 ^ 32 }
        ensures place { IfOk result (λ place. place ≡ spec.kept_by self.old piece) }
        ensures step { OnOk result (self.new ≡ spec.step self.old piece) }
        ensures next { OnErr result (self.new.next ≡ self.old.next) }
        ensures thread { OnErr result (self.new.thread ≡ self.old.thread) }
    {
        match piece {
            Piece::Begin { .. } => {
                let place = self.place_now(piece);
                self.begin();
                Ok(Some(place))
            }
            Piece::Pass { .. } => {
                let place = self.place(piece);
                self.count();
                Ok(place)
            }
            Piece::Leave { .. } => {
                let place = self.place(piece);
                self.count();
                self.reached = false;
                Ok(place)
            }
            Piece::Fork { .. } => {
                let place = self.place(piece);
                self.enter(false)?;
                Ok(place)
            }
            Piece::Loop { .. } | Piece::Inner { .. } => {
                let place = self.place(piece);
                self.enter(true)?;
                Ok(place)
            }
            Piece::Else => self.turn(piece),
            Piece::ArmsEnd | Piece::LoopEnd | Piece::InnerEnd => Ok(self.close(piece)),
            Piece::Finish { .. } => {
                let place = self.place_now(piece);
                self.finish();
                Ok(Some(place))
            }
        }
    }
}
