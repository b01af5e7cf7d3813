// The pieces of outlines.
ghost use Rattle.std.specs.Prelude.{◌≡◌};
ghost use Rattle.outline_pieces.specs.Places.{op_of, op_tried, sleeps};

use edges::EdgeOp;

/// What is done at a point with one way on.
#[derive(Clone, Copy, Debug, PartialEq, Eq)]
pub enum Deed {
    /// Nothing with locks.
    Plain,
    /// A thread is joined, where nothing may be held.
    Join,
    /// The resource is taken.
    Acquire(u32),
    /// The resource is given back.
    Release(u32),
    /// The mutex of a wait is given back.
    Wait(u32),
    /// The thread waits for a signal.
    Sleep,
    /// A woken thread takes the monitor.
    Take(u32),
    /// A woken thread takes the mutex of its wait again.
    Retake(u32),
}

/// A piece of a thread's outline.
///
/// The pieces of a part come in text order. A wait is four deeds: it gives, sleeps, takes its
/// monitors one after the other, and takes its mutex again.
#[derive(Clone, Copy, Debug, PartialEq, Eq)]
pub enum Piece {
    /// A thread begins, at the line of its start function.
    Begin { line: u32 },
    /// A point with one way on.
    Pass { line: u32, deed: Deed },
    /// Two arms begin, the first where the mutex was free, if one is tried.
    Fork { line: u32, tried: Option<u32> },
    /// A loop begins, with its test.
    Loop { line: u32 },
    /// The body of a called function begins.
    Inner { line: u32 },
    /// The function is left.
    Leave { line: u32 },
    /// The first arm ends, and the second begins.
    Else,
    /// The second arm ends.
    ArmsEnd,
    /// The body of a loop ends.
    LoopEnd,
    /// The body of a called function ends.
    InnerEnd,
    /// The thread ends, at the last line of its start function.
    Finish { line: u32 },
}

/// A piece that control reaches.
#[derive(Clone, Copy, Debug, PartialEq, Eq)]
pub struct Place {
    /// The number of the thread.
    pub thread: u32,
    /// The number of the point; of an end, or of a second arm, that of the point where both began.
    pub at: u32,
    /// The piece.
    pub piece: Piece,
}

impl Deed {
    /// What is taken or given.
    pub fn op(self) -> EdgeOp
        ensures { result ≡ op_of self }
    {
        match self {
            Deed::Plain | Deed::Join | Deed::Sleep => EdgeOp::Plain,
            Deed::Acquire(r) | Deed::Take(r) => EdgeOp::Acquire(r),
            Deed::Release(r) | Deed::Wait(r) => EdgeOp::Release(r),
            Deed::Retake(r) => EdgeOp::Reacquire(r),
        }
    }

    /// Whether the thread waits for a signal.
    pub fn sleeps(self) -> bool
        ensures { result ≡ sleeps self }
    {
        matches!(self, Deed::Sleep)
    }
}

/// What is taken on the way into the first arm.
pub fn op_tried(tried: Option<u32>) -> EdgeOp
    ensures { result ≡ op_tried tried }
{
    match tried {
        Some(resource) => EdgeOp::Try(resource),
        None => EdgeOp::Plain,
    }
}
