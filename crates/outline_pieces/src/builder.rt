// From the pieces of threads to points and edges.
ghost use Rattle.std.specs.Prelude.{◌≡◌, ◌≤◌, replicate, IfOk};

use crate::course::Course;
use crate::error::FlowError;
use crate::flow_parts::FlowParts;
use crate::pieces::{Deed, Piece, Place};
use crate::walk::held_points;
use crate::ways::edges_between;
use edges::Counts;
use sqlite_items::Items;
use std::alloc::{AllocError, Global};

/// How many points there may be.
pub const MOST_POINTS: u32 = 4096;

/// Takes the pieces of threads, one thread after the other, and makes points and edges of them.
///
/// It keeps what control reaches. From the first point too many on, and once there isn't enough
/// memory, it drops what it is given: what went wrong comes out at the end.
#[derive(Debug, Drop)]
pub struct Builder {
    alloc: Global,
    mutexes: u32,
    resources: u32,
    kept: Items<Place>,
    course: Course,
    failed: bool,
    ghost counted: { course.thread ≤ course.next },
}

/// No tokens of each resource. The one error is want of memory.
fn no_tokens(alloc: Global, resources: u32) -> Result<Counts, AllocError>
    ensures { IfOk result (λ nothing. nothing ≡ replicate resources 0) }
{
    let counts = vec![in alloc; 0u32; resources as usize]?;
    Ok(Items::from_vec(counts))
}

impl Builder {
    ghost use Rattle.std.specs.Prelude.{◌≡◌, ℕ, List, [], ◌∷◌, ◌++◌, replicate, IfOk, OnOk, IfErr};
    ghost use Rattle.outlines.specs.Outline.{Thread};
    ghost use Rattle.outline_pieces.specs.declared.pieces.Piece.{Piece as APiece};
    ghost use Rattle.outline_pieces.specs.Pieces.{wait_pieces, threads_pieces};
    ghost use Rattle.outline_pieces.specs.Courses.{step, kept_by, before};
    ghost use Rattle.outline_pieces.specs.Taken.{HasTaken};
    ghost use Rattle.outline_pieces.specs.Found.{IsFlowOf, IsErrorFor};

    /// A builder for so many mutexes, and resources with the monitors behind them, that has taken
    /// nothing.
    pub fn new(alloc: Global, mutexes: u32, resources: u32) -> Builder
        ensures { HasTaken mutexes resources result [] }
    {
        Builder {
            alloc,
            mutexes,
            resources,
            kept: Items::new(alloc),
            course: Course::new(alloc),
            failed: false,
        }
    }

    /// Keeps what control reaches of a piece. The one error is want of memory.
    fn keep(&mut self, piece: Piece) -> Result<(), AllocError>
        requires { self.old.course.next ≤ MOST_POINTS }
        ensures course { OnOk result (self.new.course ≡ step self.old.course piece) }
        ensures kept { OnOk result (self.new.kept ≡ self.old.kept ++ before (kept_by self.old.course piece) []) }
        ensures mutexes { self.new.mutexes ≡ self.old.mutexes }
        ensures resources { self.new.resources ≡ self.old.resources }
        ensures failed { self.new.failed ≡ self.old.failed }
    {
        if let Some(place) = self.course.take(piece)? {
            self.kept.push(place)?;
        }
        Ok(())
    }

    /// Takes a piece.
    pub fn push(&mut self, piece: Piece)
        ensures { (m n : ℕ) (ps : List APiece) → HasTaken m n self.old ps → HasTaken m n self.new (ps ++ piece ∷ []) }
    {
        if self.failed || self.course.next > MOST_POINTS {
            return;
        }
        if self.keep(piece).is_err() {
            self.failed = true;
        }
    }

    /// Takes the pieces of a wait, which takes monitors before its mutex.
    pub fn wait(&mut self, line: u32, resource: u32, takes: &[u32])
        ensures { (m n : ℕ) (ps : List APiece) → HasTaken m n self.old ps
            → HasTaken m n self.new (ps ++ wait_pieces line resource takes.now []) }
    {
        let wait = Deed::Wait(resource);
        let sleep = Deed::Sleep;
        let retake = Deed::Retake(resource);
        self.push(Piece::Pass { line, deed: wait });
        self.push(Piece::Pass { line, deed: sleep });
        for monitor in takes {
            let take = Deed::Take(*monitor);
            self.push(Piece::Pass { line, deed: take });
        }
        self.push(Piece::Pass { line, deed: retake });
    }

    /// The points and edges of the threads whose pieces were taken. An error is that there are too
    /// many points, or else that what is held is refused; and want of memory, at any time.
    pub fn finish(self) -> Result<FlowParts, FlowError>
        ensures found { IfOk result (λ flow. (m n : ℕ) (ths : List Thread) → HasTaken m n self (threads_pieces ths)
            → IsFlowOf m (replicate n 0) ths flow) }
        ensures refused { IfErr result (λ e. (m n : ℕ) (ths : List Thread) → HasTaken m n self (threads_pieces ths)
            → IsErrorFor m (replicate n 0) ths e) }
    {
        if self.failed {
            return Err(FlowError::Memory);
        }
        if self.course.next > MOST_POINTS {
            return Err(FlowError::TooManyPoints);
        }
        let nothing = no_tokens(self.alloc, self.resources)?;
        let points = held_points(self.alloc, self.mutexes, &nothing, self.kept.as_slice())?;
        let threads = self.course.thread;
        let edges = edges_between(self.alloc, self.kept)?;
        Ok(FlowParts {
            threads,
            points,
            edges,
        })
    }
}
