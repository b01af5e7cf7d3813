// The statement that comes first in a frame.
ghost use Rattle.state_parts.specs.First.{IsFirst, IsSmallFirst};
ghost use Rattle.state_parts.specs.Valid.{IsFrameIn, AreTablesOf};

use crate::frames::function_in;
use crate::tables::Tables;
use c_frames::Frame;
use c_tree::{Program, Stmt};

/// What comes first in a frame.
#[derive(Clone, Copy)]
pub enum First<'a> {
    /// There is no frame.
    Nothing,
    /// Nothing is left to do.
    End,
    /// A statement: itself, or the loop of a `for` whose first part is done.
    At(&'a Stmt, bool),
}

/// What comes first in a frame.
pub fn first_in<'a>(p: &'a Program, tables: &Tables, x: &Frame) -> First<'a>
    requires tables { AreTablesOf p.now tables.now }
    requires valid { IsFrameIn p.now tables.now x.now }
    ensures is { IsFirst p.now tables.now x.now result }
    ensures small { IsSmallFirst result }
{
    match function_in(p, x) {
        None => First::Nothing,
        Some(f) => match x.next(f) {
            None => First::End,
            Some(s) => First::At(s, x.begun()),
        },
    }
}
