// What an event does.
ghost use Rattle.std.specs.Prelude.{◌≡◌, Bool, Some, slice_get, false};
ghost use Rattle.c_meaning.specs.Shown.{shown, shown_stmt};
ghost use Rattle.c_meaning.specs.Step.{went, gone, chosen, chose, chose_on, step};
ghost use Rattle.c_tree.specs.Bare.{Cons};
ghost use Rattle.c_tree.specs.declared.program.Program as tree;
ghost use Rattle.c_frames.specs.Positions.{first_of};
ghost use Rattle.state_parts.specs.Small.{IsSmall};
ghost use Rattle.c_steps.specs.Standing.{At};
ghost use Rattle.state_parts.specs.declared.threads.Thread as thread;
ghost use Rattle.state_parts.specs.declared.threads.Doing.TheVariants as doing;
ghost use Rattle.c_steps.specs.Answers.{Steps};
ghost use Rattle.c_steps.specs.Asking.{asks, asks_in, asks_of};
ghost use Rattle.c_steps.specs.Kept.{IsStateOf};
ghost use Rattle.state_parts.specs.Threads.{frames_in};
ghost use Rattle.c_steps.specs.Model.{state_of};

use crate::state::{State, Stepped};
use c_meaning::{Event, EventKind};
use c_tree::{Act, Program, Stmt};
use state_parts::first::First;
use state_parts::threads::Doing;

impl State {
    /// A running thread acts in the newest of its frames.
    fn run(&mut self, p: &Program, t: u32) -> Stepped
        requires { IsStateOf p.now self.old }
        ensures is { (thread : thread.Thread) → slice_get self.old.threads.items t ≡ Some thread → thread.doing ≡ doing.Running
            → Steps p.now self.old self.new result (asks_in (frames_in p.now self.old.tables thread.frames.items)) (went (shown p.now) (state_of p.now self.old) t (frames_in p.now self.old.tables thread.frames.items)) }
        ensures kept { (thread : thread.Thread) → slice_get self.old.threads.items t ≡ Some thread → thread.doing ≡ doing.Running → IsStateOf p.now self.new }
    {
        match self.first(p, t, 0) {
            First::Nothing => Stepped::Undefined,
            First::End => self.finish(p, t, None),
            First::At(s, begun) => self.act(p, t, s, begun),
        }
    }

    /// Go: a running thread does its first statement, and a woken one takes a token of its wait, or else its mutex.
    fn go(&mut self, p: &Program, t: u32) -> Stepped
        requires { IsStateOf p.now self.old }
        ensures is { Steps p.now self.old self.new result (asks_of (slice_get (state_of p.now self.old).threads t)) (gone (shown p.now) (state_of p.now self.old) t (slice_get (state_of p.now self.old).threads t)) }
        ensures kept { IsStateOf p.now self.new }
    {
        match self.doing(t as usize) {
            Some(Doing::Running) => self.run(p, t),
            Some(Doing::Reacquiring { mutex, taken }) => self.acquire_again(p, t, mutex, taken),
            _ => Stepped::NotEnabled,
        }
    }

    /// Choose: a running thread whose first statement is a signal wakes u by it.
    fn choose_to_wake(&mut self, p: &Program, t: u32, u: u32) -> Stepped
        requires { IsStateOf p.now self.old }
        ensures is { Steps p.now self.old self.new result false (chosen (shown p.now) (state_of p.now self.old) t u (slice_get (state_of p.now self.old).threads t)) }
        ensures kept { IsStateOf p.now self.new }
    {
        match self.doing(t as usize) {
            Some(Doing::Running) => self.signal_to(p, t, u),
            _ => Stepped::NotEnabled,
        }
    }

    /// A running thread whose first statement is a signal wakes u by it.
    fn signal_to(&mut self, p: &Program, t: u32, u: u32) -> Stepped
        requires { IsStateOf p.now self.old }
        ensures is { (thread : thread.Thread) → slice_get self.old.threads.items t ≡ Some thread → thread.doing ≡ doing.Running
            → Steps p.now self.old self.new result false (chose (shown p.now) (state_of p.now self.old) t u (frames_in p.now self.old.tables thread.frames.items)) }
        ensures kept { IsStateOf p.now self.new }
    {
        match self.first(p, t, 0) {
            First::Nothing => Stepped::NotEnabled,
            First::End => Stepped::NotEnabled,
            First::At(s, _) => self.choose_at(p, t, u, s),
        }
    }

    /// A thread wakes u by a statement, where that is a signal.
    fn choose_at(&mut self, p: &Program, t: u32, u: u32, s: &Stmt) -> Stepped
        requires state { IsStateOf p.now self.old }
        requires small { IsSmall (shown_stmt s.now) }
        ensures is { (begun : Bool) (at : At p.now self.old t (first_of begun (shown_stmt s.now)))
            → Steps p.now self.old self.new result false (chose_on (shown p.now) (state_of p.now self.old) t at.locals at.more u (Cons (first_of begun (shown_stmt s.now)) at.rest)) }
        ensures kept { IsStateOf p.now self.new }
    {
        match &s.act {
            Act::Signal { cond } => self.choose(p, t, u, cond),
            _ => Stepped::NotEnabled,
        }
    }

    /// Does an event: an expression and a statement are those of C (ISO/IEC 9899:1999, sections 6.5 and 6.8), a mutex, a
    /// condition variable and a thread those of POSIX (IEEE Std 1003.1, `pthread.h`).
    ///
    /// `p` is the program that the state was started on. `Done` says what was done, with the number of a thread, a mutex
    /// or a monitor where there is one. `NotEnabled` comes where the event can't happen now: a thread that the program
    /// doesn't have, a mutex that has an owner, a signal that is to wake a thread that doesn't wait. `Undefined` comes
    /// where C or POSIX say nothing of what happens: a value that isn't set, a sum that overflows, an unlock by a thread
    /// that isn't the owner. `Memory` comes only at a call, a print and a create. On any answer but `Done` the state is as
    /// before.
    pub fn step(&mut self, p: &Program, e: Event) -> Stepped
        requires { IsStateOf p.now self.old }
        ensures is { Steps p.now self.old self.new result (asks (state_of p.now self.old) e) (step (shown p.now) (state_of p.now self.old) e) }
        ensures kept { IsStateOf p.now self.new }
    {
        if self.main_ended {
            return Stepped::NotEnabled;
        }
        match e.kind {
            EventKind::Go => self.go(p, e.thread),
            EventKind::Choose(u) => self.choose_to_wake(p, e.thread, u),
            EventKind::Wake => self.wake(e.thread),
        }
    }

    /// Whether main has ended, so that nothing is enabled.
    pub fn ended(&self) -> bool
        ensures { (p : tree.Program) → result ≡ (state_of p self.now).main_ended }
    {
        self.main_ended
    }

    /// The bytes that were printed.
    pub fn output(&self) -> &[u8]
        ensures { (p : tree.Program) → result.now ≡ (state_of p self.now).output }
    {
        self.output.as_slice()
    }
}
