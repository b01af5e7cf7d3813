// Acts that take memory.
ghost use Rattle.c_steps.specs.Kept.{IsStateOf};

use accepted_texts::accepted;
use c_meaning::Did::{Create, End, Join, Print, Step};
use c_meaning::{Event, EventKind};
use c_steps::Stepped::{Done, NotEnabled};
use c_steps::{State, Stepped};
use c_tree::{Program, Values};
use std::alloc::Global;

/// A thread is created, which calls a function that prints.
const ACTS: &[u8] = b"
pthread_t t;
int twice(int n) { printf(\"%d,\", n); return 2 * n; }
void *w(void *arg) { int n = twice(1); n = twice(n); printf(\"%d\", n); }
int main(void) { pthread_create(&t, NULL, w, NULL); pthread_join(t, NULL); }
";

/// Threads that do their next acts, and what comes of each.
const TURNS: [(u32, Stepped); 13] = [
    (0, Done(Create(1))),
    (1, Done(Step)),
    (1, Done(Step)),
    (1, Done(Print)),
    (0, NotEnabled),
    (1, Done(Step)),
    (1, Done(Step)),
    (1, Done(Print)),
    (1, Done(Step)),
    (1, Done(Print)),
    (1, Done(End)),
    (0, Done(Join(1))),
    (0, Done(End)),
];

/// What comes of an act that is tried once more where memory was wanted.
fn insisted(state: &mut State, p: &Program, thread: u32) -> Stepped
    requires { IsStateOf p.now state.old }
    ensures { IsStateOf p.now state.new }
{
    let go = Event {
        thread,
        kind: EventKind::Go,
    };
    match state.step(p, go) {
        Stepped::Memory => state.step(p, go),
        came => came,
    }
}

/// Whether of each act comes what is wanted, at its second try at the latest.
fn are_done(state: &mut State, p: &Program, turns: &[(u32, Stepped)]) -> bool
    requires { IsStateOf p.now state.old }
    ensures { IsStateOf p.now state.new }
{
    for (thread, wanted) in turns {
        if insisted(state, p, *thread) != *wanted {
            return false;
        }
    }
    true
}

/// Whether all acts are done, and print what they would; none where there was no memory to start.
fn are_all_done(alloc: Global) -> Option<bool> {
    let p = accepted(alloc, ACTS)?;
    let input = Values::new(alloc);
    let Ok(mut state) = State::start(alloc, &p, input) else {
        return None;
    };
    let done = are_done(&mut state, &p, &TURNS);
    Some(done && state.output() == b"1,2,4".as_slice())
}

/// A second start comes where one allocation of the first failed, as a run of the tests may ask.
#[test]
fn acts_that_wanted_memory_are_done_later(rt: HostRuntime) {
    let done = match are_all_done(rt.alloc()) {
        Some(done) => done,
        None => are_all_done(rt.alloc()) == Some(true),
    };
    assert!(rt; done);
}
