//! What a program means: its states, what an event does in one, and which threads block each other.
#![tactic(auto)]

mod closed;
mod laws;
mod printing;
mod samples;
mod values;

pub use closed::{Blocking, largest};
pub use laws::{programs_end_with_main, stuck_sets_are_closed, stuck_sets_unite};
pub use printing::put_format;
pub use samples::{
    crossing_locks_get_stuck, threads_take_turns, unlocking_for_another_is_undefined,
};
pub use values::{Scope, value};

/// What happens to a thread.
#[derive(Clone, Copy, Debug, PartialEq, Eq)]
pub enum EventKind {
    /// It does its next act.
    Go,
    /// It signals, and this thread is the one that is woken.
    Choose(u32),
    /// It is woken without a signal, as POSIX allows.
    Wake,
}

/// One atomic step of a run: what happens, and to which thread.
#[derive(Clone, Copy, Debug, PartialEq, Eq)]
pub struct Event {
    /// The thread: 0 is main, and the others are numbered from 1 in the order of their create
    /// statements.
    pub thread: u32,
    /// What happens to it.
    pub kind: EventKind,
}

/// What an event did.
#[derive(Clone, Copy, Debug, PartialEq, Eq)]
pub enum Did {
    /// It began this thread.
    Create(u32),
    /// It saw that this thread has ended.
    Join(u32),
    /// It locked this mutex.
    Lock(u32),
    /// It unlocked this mutex.
    Unlock(u32),
    /// It took a token of this monitor.
    Take(u32),
    /// It gave a token of this monitor back.
    Give(u32),
    /// It released this mutex and waits.
    Wait(u32),
    /// It was woken without a signal.
    Wake,
    /// It acquired this mutex again, after a wait.
    Retake(u32),
    /// It signalled, and woke this thread, or none.
    Signal(Option<u32>),
    /// It woke all that wait on a condition.
    Broadcast,
    /// It read a number, or found none.
    Read,
    /// It printed.
    Print,
    /// Its thread ended.
    End,
    /// It did anything else.
    Step,
}
