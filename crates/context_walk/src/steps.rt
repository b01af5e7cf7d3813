// Statements that matter for contexts, with the numbers of what they name.
ghost use Rattle.std.specs.Prelude.{◌≡◌};
ghost use Rattle.context_walk.specs.Steps.{step_bears, steps_bear};

use c_tree::{Expr, Place};
use context_locals::{MutexPlace, Operand};

/// A statement that matters for contexts, or an end of a block, with the numbers of what it names.
#[derive(Clone, Copy, Debug)]
pub enum Step<'p> {
    /// A block begins.
    Opens,
    /// The last block that began ends.
    Closes,
    /// A local is declared.
    Declares {
        /// Its name.
        name: &'p [u8],
        /// Its first value, if it has one.
        value: &'p Option<Expr>,
        /// Its number, if it can be constant.
        local: Option<usize>,
        /// Its first value, numbered.
        operand: Option<Operand<'p>>,
    },
    /// A mutex is locked, tried, unlocked or waited with.
    Locks {
        /// The line of the statement.
        line: u32,
        /// Where the mutex is named.
        place: &'p Place,
        /// The same, numbered.
        mutex: MutexPlace<'p>,
    },
    /// A token of a monitor is taken or given.
    Holds {
        /// The monitor.
        monitor: u32,
        /// Its number among the resources.
        resource: u8,
    },
    /// A function is called.
    Calls {
        /// Its name.
        name: &'p [u8],
        /// The arguments.
        args: &'p [Expr],
        /// Its place, if it bears locks.
        callee: Option<usize>,
    },
}

/// Whether a step takes or gives something, waits, or calls a function that does.
fn is_bearing(step: &Step) -> bool
    ensures { result ≡ step_bears step.now }
{
    match step {
        Step::Locks { .. } => true,
        Step::Holds { .. } => true,
        Step::Calls { callee, .. } => callee.is_some(),
        _ => false,
    }
}

/// Whether one of these steps does.
pub(crate) fn bear(steps: &[Step]) -> bool
    ensures { result ≡ steps_bear steps.now }
{
    steps.iter().any(|step| is_bearing(step))
}
