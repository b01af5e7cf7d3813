// The state in which a program starts.
ghost use Rattle.std.specs.Prelude.{◌≡◌, IfOk};
ghost use Rattle.c_meaning.specs.Shown.{shown};
ghost use Rattle.c_meaning.specs.State.{start};
ghost use Rattle.state_parts.specs.Accepted.{Accepted};
ghost use Rattle.c_steps.specs.Kept.{IsStateOf};
ghost use Rattle.c_steps.specs.Model.{state_of};
ghost use Rattle.state_parts.specs.Small.{AreSmall};

use crate::state::State;
use c_tree::{Program, Values};
use state_parts::starting::{first_cells, first_rows, first_threads, no_owners};
use state_parts::tables::Tables;
use std::alloc::{AllocError, Global};

impl State {
    /// The state in which a program starts: main alone runs, no mutex has an owner, and no token is held.
    ///
    /// `p` is a program that the rules accept in mode Any, and each number in its statements is at most 2147483647, as in
    /// every program that is read. `input` are the numbers that it may read, in their order. The one error is want of
    /// memory.
    pub fn start(alloc: Global, p: &Program, input: Values) -> Result<State, AllocError>
        requires accepted { Accepted p.now }
        requires small { AreSmall p.now }
        ensures is { IfOk result (λ s. state_of p.now s ≡ start (shown p.now) input) }
        ensures kept { IfOk result (IsStateOf p.now) }
    {
        let tables = Tables::new(alloc, p)?;
        let threads = first_threads(alloc, p, &tables)?;
        let owners = no_owners(alloc, tables.numbers.mutexes())?;
        let tokens = first_rows(alloc, p.monitors.as_slice(), tables.numbers.threads())?;
        Ok(State {
            tables,
            cells: first_cells(alloc, p)?,
            input,
            read: 0,
            output: Vec::new(alloc),
            main_ended: false,
            owners,
            tokens,
            threads,
        })
    }
}
