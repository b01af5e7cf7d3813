// Scratch rows.
ghost use Rattle.std.specs.Prelude.{◌≡◌, ℕ, IfOk, length};

use std::alloc::{AllocError, Global};
use std::marker::Model;

/// Room for what calls on a net keep while they run. It is made once, and serves any number of
/// calls in turn.
///
/// Contracts see the number of points that it has room for.
#[derive(Drop)]
pub struct Work {
    pub(crate) row: Vec<u32>,
    pub(crate) sums: Vec<u64>,
}

impl Model for Work {
    ghost Value = { ℕ };

    ghost view = { λ work. length work.row.items };

    ghost invariant = { λ work. length work.sums.items ≡ length work.row.items };
}

impl Work {
    /// Room for a net of so many points. The one error is want of memory.
    pub fn new(alloc: Global, points: u32) -> Result<Work, AllocError>
        ensures { IfOk result (λ work. work ≡ points) }
    {
        let row = vec![in alloc; 0u32; points as usize]?;
        let sums = vec![in alloc; 0u64; points as usize]?;
        Ok(Work { row, sums })
    }
}
