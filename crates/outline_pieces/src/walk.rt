// What is held at places, and where it is refused.
ghost use Rattle.std.specs.Prelude.{◌≡◌, ◌++◌, [], OnOk, IfOk, IfErr, slice_get};
ghost use Rattle.outline_pieces.specs.Walks as spec;
ghost use Rattle.outline_pieces.specs.Errors.{Tells, refusal_of};

use crate::counts::{differ, differs_from, is_held, lower, raise, refuse};
use crate::error::FlowError;
use crate::pieces::{Deed, Piece, Place};
use crate::stack::Stack;
use edges::{Counts, Point, Points};
use held_counts::HeldKind;
use sqlite_items::Items;
use std::alloc::{AllocError, Global};
use std::mem;

/// Two arms that began.
#[derive(Debug, Drop)]
pub struct Arms {
    /// The line where they began.
    pub line: u32,
    /// In the first arm what is held where the second begins, and in the second what is held
    /// where the first ends.
    pub held: Counts,
    /// In the second arm, whether control passes the first.
    pub passed: bool,
}

/// A loop that began.
#[derive(Debug, Drop)]
pub struct Looped {
    /// The line where it began.
    pub line: u32,
    /// What was held there.
    pub held: Counts,
}

/// A function whose call goes on.
#[derive(Debug, Drop)]
pub struct Caller {
    /// What was held at its first exit.
    pub exit: Option<Counts>,
    /// Whether it is a start function.
    pub starts: bool,
}

/// How far a walk has come.
#[derive(Debug, Drop)]
pub struct Walk {
    /// What is held.
    pub here: Counts,
    /// Whether control comes here.
    pub reached: bool,
    /// What was held at the first exit of the function.
    pub exit: Option<Counts>,
    /// Whether it is a thread's start function.
    pub starts: bool,
    /// The arms that began, the innermost on top.
    pub arms: Stack<Arms>,
    /// The loops that began, the innermost on top.
    pub loops: Stack<Looped>,
    /// The functions that called, the newest on top.
    pub callers: Stack<Caller>,
}

/// Equal numbers. The one error is want of memory.
fn copy(alloc: Global, held: &Counts) -> Result<Counts, AllocError>
    ensures { IfOk result (λ copied. copied ≡ held.now) }
{
    Items::from_slice(alloc, held.as_slice())
}

impl Walk {
    /// Before the first thread. The one error is want of memory.
    pub fn new(alloc: Global, nothing: &Counts) -> Result<Walk, AllocError>
        ensures { IfOk result (λ w. w ≡ spec.start nothing.now) }
    {
        Ok(Walk {
            here: copy(alloc, nothing)?,
            reached: false,
            exit: None,
            starts: false,
            arms: Stack::new(alloc),
            loops: Stack::new(alloc),
            callers: Stack::new(alloc),
        })
    }

    /// A thread begins. The one error is want of memory.
    fn begin(&mut self, alloc: Global, nothing: &Counts) -> Result<(), AllocError>
        ensures { OnOk result (self.new ≡ spec.begun nothing.now self.old) }
    {
        self.here = copy(alloc, nothing)?;
        self.reached = true;
        self.exit = None;
        self.starts = true;
        Ok(())
    }

    /// Does a deed. The one error is want of memory.
    fn act(&mut self, deed: Deed) -> Result<(), FlowError>
        ensures ok { OnOk result (self.new ≡ spec.with_here (spec.behind self.old.here deed) self.old) }
        ensures err { IfErr result (λ e. e ≡ FlowError.Memory) }
    {
        match deed {
            Deed::Acquire(r) | Deed::Take(r) | Deed::Retake(r) => raise(&mut self.here, r)?,
            Deed::Release(r) | Deed::Wait(r) => lower(&mut self.here, r),
            Deed::Plain | Deed::Join | Deed::Sleep => {}
        }
        Ok(())
    }

    /// Two arms begin. The one error is want of memory.
    fn fork(&mut self, alloc: Global, line: u32, tried: Option<u32>) -> Result<(), FlowError>
        ensures ok { OnOk result (self.new ≡ spec.forked line tried self.old) }
        ensures err { IfErr result (λ e. e ≡ FlowError.Memory) }
    {
        let held = copy(alloc, &self.here)?;
        self.arms.push(Arms {
            line,
            held,
            passed: false,
        })?;
        if let Some(resource) = tried {
            raise(&mut self.here, resource)?;
        }
        Ok(())
    }

    /// The first arm ends, and the second begins. The one error is want of memory.
    fn turn(&mut self) -> Result<(), AllocError>
        ensures { OnOk result (self.new ≡ spec.turned self.old.arms self.old) }
    {
        let Some(Arms { line, held, .. }) = self.arms.pop() else {
            return Ok(());
        };
        let first = mem::replace(&mut self.here, held);
        self.arms.push(Arms {
            line,
            held: first,
            passed: self.reached,
        })?;
        self.reached = true;
        Ok(())
    }

    /// The second arm ends.
    fn meet(&mut self)
        ensures { self.new ≡ spec.met self.old.arms self.old }
    {
        let Some(Arms { held, passed, .. }) = self.arms.pop() else {
            return;
        };
        if passed {
            self.here = held;
        }
        self.reached = passed || self.reached;
    }

    /// A loop begins. The one error is want of memory.
    fn enter_loop(&mut self, alloc: Global, line: u32) -> Result<(), AllocError>
        ensures { OnOk result (self.new ≡ spec.looped line self.old) }
    {
        let held = copy(alloc, &self.here)?;
        self.loops.push(Looped { line, held })
    }

    /// The body of a loop ends.
    fn leave_loop(&mut self)
        ensures { self.new ≡ spec.out_of self.old.loops self.old }
    {
        if let Some(Looped { held, .. }) = self.loops.pop() {
            self.here = held;
            self.reached = true;
        }
    }

    /// The body of a called function begins. The one error is want of memory.
    fn call(&mut self) -> Result<(), AllocError>
        ensures { OnOk result (self.new ≡ spec.called self.old) }
    {
        let exit = self.exit.take();
        self.callers.push(Caller {
            exit,
            starts: self.starts,
        })?;
        self.starts = false;
        Ok(())
    }

    /// The body of a called function ends.
    fn end_call(&mut self)
        ensures { self.new ≡ spec.returned self.old.callers self.old }
    {
        let Some(Caller { exit, starts }) = self.callers.pop() else {
            return;
        };
        if let Some(held) = mem::replace(&mut self.exit, exit) {
            self.here = held;
        }
        self.starts = starts;
        self.reached = true;
    }

    /// A function is left. The one error is want of memory.
    fn leave(&mut self, alloc: Global) -> Result<(), AllocError>
        ensures { OnOk result (self.new ≡ spec.left self.old) }
    {
        if self.exit.is_none() {
            self.exit = Some(copy(alloc, &self.here)?);
        }
        self.reached = false;
        Ok(())
    }

    /// Comes behind a piece. The one error is want of memory.
    fn step(&mut self, alloc: Global, nothing: &Counts, piece: Piece) -> Result<(), FlowError>
        ensures ok { OnOk result (self.new ≡ spec.step nothing.now self.old piece) }
        ensures err { IfErr result (λ e. e ≡ FlowError.Memory) }
    {
        match piece {
            Piece::Begin { .. } => self.begin(alloc, nothing)?,
            Piece::Pass { deed, .. } => self.act(deed)?,
            Piece::Fork { line, tried } => self.fork(alloc, line, tried)?,
            Piece::Loop { line } => self.enter_loop(alloc, line)?,
            Piece::Inner { .. } => self.call()?,
            Piece::Leave { .. } => self.leave(alloc)?,
            Piece::Else => self.turn()?,
            Piece::ArmsEnd => self.meet(),
            Piece::LoopEnd => self.leave_loop(),
            Piece::InnerEnd => self.end_call(),
            Piece::Finish { .. } => {}
        }
        Ok(())
    }

    /// Refuses a deed for which what is held is wrong.
    fn allow_deed(
        &self,
        mutexes: u32,
        nothing: &Counts,
        line: u32,
        deed: Deed,
    ) -> Result<(), FlowError>
        ensures ok { OnOk result (spec.refused_deed mutexes nothing.now self.now.here line deed ≡ None) }
        ensures err { IfErr result (λ e. Tells e (spec.refused_deed mutexes nothing.now self.now.here line deed)) }
    {
        match deed {
            Deed::Join => refuse(differ(&self.here, nothing), HeldKind::HeldAtJoin, line),
            Deed::Acquire(r) => self.allow_taking(mutexes, line, r),
            Deed::Release(r) => refuse(!is_held(&self.here, r), HeldKind::NotHeld, line),
            Deed::Wait(r) => refuse(!is_held(&self.here, r), HeldKind::WaitNotHeld, line),
            Deed::Plain | Deed::Sleep | Deed::Take(_) | Deed::Retake(_) => Ok(()),
        }
    }

    /// Refuses to take a mutex that is held.
    fn allow_taking(&self, mutexes: u32, line: u32, resource: u32) -> Result<(), FlowError>
        ensures ok { OnOk result (spec.refused_fork mutexes self.now.here line (Some resource) ≡ None) }
        ensures err { IfErr result (λ e. Tells e (spec.refused_fork mutexes self.now.here line (Some resource))) }
    {
        let again = resource < mutexes && is_held(&self.here, resource);
        refuse(again, HeldKind::Relock, line)
    }

    /// Refuses to leave a function with other tokens than at its first exit, and a thread with
    /// any.
    fn allow_leaving(&self, nothing: &Counts, line: u32) -> Result<(), FlowError>
        ensures ok { OnOk result (spec.refused_leave nothing.now line self.now ≡ None) }
        ensures err { IfErr result (λ e. Tells e (spec.refused_leave nothing.now line self.now)) }
    {
        let other = differs_from(&self.exit, &self.here);
        refuse(other, HeldKind::HeldDiffers, line)?;
        let at_end = self.starts && differ(&self.here, nothing);
        refuse(at_end, HeldKind::HeldAtEnd, line)
    }

    /// Refuses arms that end with different tokens.
    fn allow_meeting(&self) -> Result<(), FlowError>
        ensures ok { OnOk result (spec.refused_arms (slice_get self.now.arms 0) self.now ≡ None) }
        ensures err { IfErr result (λ e. Tells e (spec.refused_arms (slice_get self.now.arms 0) self.now)) }
    {
        let Some(arms) = self.arms.top() else {
            return Ok(());
        };
        let other = arms.passed && self.reached && differ(&arms.held, &self.here);
        refuse(other, HeldKind::HeldDiffers, arms.line)
    }

    /// Refuses a loop whose body ends with other tokens than it began with.
    fn allow_again(&self) -> Result<(), FlowError>
        ensures ok { OnOk result (spec.refused_loop (slice_get self.now.loops 0) self.now ≡ None) }
        ensures err { IfErr result (λ e. Tells e (spec.refused_loop (slice_get self.now.loops 0) self.now)) }
    {
        let Some(looped) = self.loops.top() else {
            return Ok(());
        };
        let other = self.reached && differ(&self.here, &looped.held);
        refuse(other, HeldKind::HeldDiffers, looped.line)
    }

    /// Refuses a piece for which what is held is wrong.
    fn allow(&self, mutexes: u32, nothing: &Counts, piece: Piece) -> Result<(), FlowError>
        ensures ok { OnOk result (spec.refused_at mutexes nothing.now self.now piece ≡ None) }
        ensures err { IfErr result (λ e. Tells e (spec.refused_at mutexes nothing.now self.now piece)) }
    {
        match piece {
            Piece::Pass { line, deed } => self.allow_deed(mutexes, nothing, line, deed),
            Piece::Fork {
                line,
                tried: Some(resource),
            } => self.allow_taking(mutexes, line, resource),
            Piece::Leave { line } => self.allow_leaving(nothing, line),
            Piece::ArmsEnd => self.allow_meeting(),
            Piece::LoopEnd => self.allow_again(),
            Piece::Begin { .. }
            | Piece::Fork { tried: None, .. }
            | Piece::Loop { .. }
            | Piece::Inner { .. }
            | Piece::Else
            | Piece::InnerEnd
            | Piece::Finish { .. } => Ok(()),
        }
    }

    /// The point of a place, if it has one. The one error is want of memory.
    fn point(
        &self,
        alloc: Global,
        nothing: &Counts,
        place: Place,
    ) -> Result<Option<Point>, AllocError>
        ensures { IfOk result (λ p. p ≡ spec.point_of nothing.now self.now place.thread place.piece) }
    {
        let (line, waiting, held) = match place.piece {
            Piece::Begin { line } if place.thread > 0 => (line, false, nothing),
            Piece::Finish { line } => (line, false, nothing),
            Piece::Pass { line, deed } => (line, deed.sleeps(), &self.here),
            Piece::Fork { line, .. }
            | Piece::Loop { line }
            | Piece::Inner { line }
            | Piece::Leave { line } => (line, false, &self.here),
            Piece::Begin { .. } | Piece::Else | Piece::ArmsEnd | Piece::LoopEnd | Piece::InnerEnd =>
                {
                    return Ok(None);
                }
        };
        Ok(Some(Point {
            thread: place.thread,
            line,
            waiting,
            held: copy(alloc, held)?,
        }))
    }

    /// Comes behind a place, with its point, or refuses it.
    fn go(
        &mut self,
        alloc: Global,
        mutexes: u32,
        nothing: &Counts,
        place: Place,
        points: &mut Points,
    ) -> Result<(), FlowError>
        ensures allowed { OnOk result (spec.refused_at mutexes nothing.now self.old place.piece ≡ None) }
        ensures steps { OnOk result (self.new ≡ spec.step nothing.now self.old place.piece) }
        ensures points { OnOk result (points.new ≡ points.old ++ spec.with_point (spec.point_of nothing.now self.old place.thread place.piece) []) }
        ensures err { IfErr result (λ e. Tells e (spec.refused_at mutexes nothing.now self.old place.piece)) }
    {
        self.allow(mutexes, nothing, place.piece)?;
        if let Some(point) = self.point(alloc, nothing, place)? {
            points.push(point)?;
        }
        self.step(alloc, nothing, place.piece)
    }
}

/// The points of places with what is held there, where nothing is held at first, or the first
/// refusal.
pub fn held_points(
    alloc: Global,
    mutexes: u32,
    nothing: &Counts,
    places: &[Place],
) -> Result<Points, FlowError>
    ensures ok { IfOk result (λ points. spec.walked mutexes nothing.now (spec.start nothing.now) places.now ≡ spec.Held points) }
    ensures err { IfErr result (λ e. Tells e (refusal_of (spec.walked mutexes nothing.now (spec.start nothing.now) places.now))) }
{
    let mut walk = Walk::new(alloc, nothing)?;
    let mut points = Items::new(alloc);
    for place in places {
        walk.go(alloc, mutexes, nothing, *place, &mut points)?;
    }
    Ok(points)
}
