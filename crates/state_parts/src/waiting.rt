// Threads that wait, and threads that have ended.
ghost use Rattle.std.specs.Prelude.{◌≡◌, List, map};
ghost use Rattle.c_meaning.specs.State as run;
ghost use Rattle.c_meaning.specs.Waits.{waits_on};
ghost use Rattle.state_parts.specs.Threads.{status_with};
ghost use Rattle.state_parts.specs.Waiting.{mutex_waiting, doing_awakened, thread_awakened, has_ended};

use crate::threads::{Doing, Thread};

/// Whether a thread that does this has ended.
pub fn has_ended(doing: Doing) -> bool
    ensures { result ≡ has_ended doing }
{
    match doing {
        Doing::Ended => true,
        Doing::NotBegun => false,
        Doing::Running => false,
        Doing::Waiting { .. } => false,
        Doing::Reacquiring { .. } => false,
    }
}

/// Whether a thread that does this waits on a condition.
pub fn waits_on(doing: Doing, condition: u128) -> bool
    ensures { (frames : List run.Frame) → result ≡ waits_on condition (status_with doing frames) }
{
    match doing {
        Doing::Waiting { condition: c, .. } => c == condition,
        Doing::NotBegun => false,
        Doing::Running => false,
        Doing::Reacquiring { .. } => false,
        Doing::Ended => false,
    }
}

/// The mutex that a thread released when it began to wait on a condition.
pub fn mutex_waiting(doing: Doing, condition: u128) -> Option<u32>
    ensures { result ≡ mutex_waiting condition doing }
{
    match doing {
        Doing::Waiting {
            condition: c,
            mutex,
        } => { if c == condition { Some(mutex) } else { None } }
        Doing::NotBegun => None,
        Doing::Running => None,
        Doing::Reacquiring { .. } => None,
        Doing::Ended => None,
    }
}

/// What a thread does after a broadcast on a condition.
pub fn awakened(doing: Doing, condition: u128) -> Doing
    ensures { result ≡ doing_awakened condition doing }
{
    match mutex_waiting(doing, condition) {
        Some(mutex) => Doing::Reacquiring { mutex, taken: 0 },
        None => doing,
    }
}

/// All threads that wait on a condition are woken, and have taken none of their tokens.
pub fn awaken_all(threads: &mut [Thread], condition: u128)
    ensures { threads.new ≡ map (thread_awakened condition) threads.old }
{
    for thread in threads.iter_mut() {
        thread.doing = awakened(thread.doing, condition);
    }
}
