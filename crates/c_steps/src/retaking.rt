// How a woken thread goes on.
ghost use Rattle.std.specs.Prelude.{◌≡◌, ◌+◌, ◌<◌, ◌^◌, Some, IsSome, drop, slice_get, false};
ghost use Rattle.c_meaning.specs.Waits.{takes_of, wait_ended_in, retaken};
ghost use Rattle.c_meaning.specs.Locks.{taken as taken_of};
ghost use Rattle.c_meaning.specs.Step.{acquired_again};
ghost use Rattle.c_meaning.specs.Shown.{shown, shown_stmt};
ghost use Rattle.state_parts.specs.declared.threads.Thread as thread;
ghost use Rattle.state_parts.specs.declared.threads.Doing.TheVariants as doing;
ghost use Rattle.state_parts.specs.Threads.{status_with, frames_in};
ghost use Rattle.c_steps.specs.Model.{state_of};
ghost use Rattle.c_steps.specs.Answers.{Steps};
ghost use Rattle.c_steps.specs.Kept.{IsStateOf};
ghost use Rattle.state_parts.specs.Statements.{takes_in};
ghost use Rattle.state_parts.specs.Waiting.{is_wait};

use crate::state::{State, Stepped};
use c_meaning::Did;
use c_tree::{Program, Stmt};
use state_parts::first::First;
use state_parts::frames::Onward;
use state_parts::statements::{is_wait, takes_in};
use state_parts::threads::Doing;
use state_parts::tokens::{capacity, has_room, held_by};

/// The monitor at a place of those of which a wait takes tokens.
fn take_at(s: &Stmt, place: usize) -> Option<u32>
    ensures is { result ≡ slice_get (takes_in (shown_stmt s.now)) place }
    ensures few { IsSome result → place + 1 < 2 ^ 64 }
{
    takes_in(s).get(place).copied()
}

impl State {
    /// A woken thread owns its mutex again and runs, and its wait is dropped.
    fn end_wait(&mut self, p: &Program, t: u32, mutex: u32) -> Stepped
        requires { IsStateOf p.now self.old }
        ensures is { (thread : thread.Thread) → slice_get self.old.threads.items t ≡ Some thread
            → Steps p.now self.old self.new result false (wait_ended_in (state_of p.now self.old) t mutex (frames_in p.now self.old.tables thread.frames.items)) }
        ensures kept { (thread : thread.Thread) → slice_get self.old.threads.items t ≡ Some thread → IsStateOf p.now self.new }
    {
        match self.first(p, t, 0) {
            First::At(s, _) => {
                if !is_wait(s) {
                    return Stepped::Undefined;
                }
                self.turn(t, Doing::Running);
                self.go_on_owning(p, t, mutex as usize, Some(t), Onward::Past);
                Stepped::Done(Did::Retake(mutex))
            }
            First::Nothing => Stepped::Undefined,
            First::End => Stepped::Undefined,
        }
    }

    /// A woken thread goes on where its mutex has no owner.
    fn retake(&mut self, p: &Program, t: u32, mutex: u32) -> Stepped
        requires { IsStateOf p.now self.old }
        ensures is { (thread : thread.Thread) → slice_get self.old.threads.items t ≡ Some thread
            → Steps p.now self.old self.new result false (retaken (state_of p.now self.old) t mutex (frames_in p.now self.old.tables thread.frames.items) (slice_get self.old.owners.items mutex)) }
        ensures kept { (thread : thread.Thread) → slice_get self.old.threads.items t ≡ Some thread → IsStateOf p.now self.new }
    {
        match self.owner(mutex as usize) {
            Some(None) => self.end_wait(p, t, mutex),
            Some(Some(_)) => Stepped::NotEnabled,
            None => Stepped::Undefined,
        }
    }

    /// The first monitor of which a woken thread still takes a token, where it has taken so many.
    pub(crate) fn next_take(&self, p: &Program, t: u32, taken: usize) -> Option<u32>
        requires { IsStateOf p.now self.now }
        ensures is { (thread : thread.Thread) → slice_get self.now.threads.items t ≡ Some thread
            → result ≡ slice_get (takes_of (frames_in p.now self.now.tables thread.frames.items)) taken }
        ensures few { IsSome result → taken + 1 < 2 ^ 64 }
    {
        match self.first(p, t, 0) {
            First::At(s, _) => take_at(s, taken),
            First::Nothing => None,
            First::End => None,
        }
    }

    /// A woken thread that has taken so many tokens takes one of a monitor: enabled where a token is free.
    fn take_again(&mut self, p: &Program, t: u32, mutex: u32, taken: usize, monitor: u32) -> Stepped
        requires state { IsStateOf p.now self.old }
        requires few { taken + 1 < 2 ^ 64 }
        ensures is { (thread : thread.Thread) → slice_get self.old.threads.items t ≡ Some thread
            → Steps p.now self.old self.new result false (taken_of (state_of p.now self.old) t (status_with (doing.Reacquiring mutex (taken + 1)) (frames_in p.now self.old.tables thread.frames.items)) monitor (slice_get p.now.monitors monitor) (slice_get (state_of p.now self.old).tokens monitor)) }
        ensures kept { IsStateOf p.now self.new }
    {
        let Some(capacity) = capacity(p, monitor) else {
            return Stepped::Undefined;
        };
        let Some(row) = self.row(monitor) else {
            return Stepped::Undefined;
        };
        if !has_room(row, capacity) {
            return Stepped::NotEnabled;
        }
        let held = held_by(row, t) + 1;
        self.turn(
            t,
            Doing::Reacquiring {
                mutex,
                taken: taken + 1,
            },
        );
        self.set_row(monitor, t, held);
        Stepped::Done(Did::Take(monitor))
    }

    /// A woken thread takes the first of the tokens that it still takes, or else its mutex.
    pub(crate) fn acquire_again(&mut self, p: &Program, t: u32, mutex: u32, taken: usize) -> Stepped
        requires { IsStateOf p.now self.old }
        ensures is { (thread : thread.Thread) → slice_get self.old.threads.items t ≡ Some thread
            → Steps p.now self.old self.new result false (acquired_again (shown p.now) (state_of p.now self.old) t mutex (frames_in p.now self.old.tables thread.frames.items) (drop taken (takes_of (frames_in p.now self.old.tables thread.frames.items)))) }
        ensures kept { (thread : thread.Thread) → slice_get self.old.threads.items t ≡ Some thread → IsStateOf p.now self.new }
    {
        match self.next_take(p, t, taken) {
            Some(monitor) => self.take_again(p, t, mutex, taken, monitor),
            None => self.retake(p, t, mutex),
        }
    }
}
