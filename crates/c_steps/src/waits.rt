// Conditions: wait, signal and broadcast, and how a waiting thread goes on.
ghost use Rattle.std.specs.Prelude.{◌≡◌, ℕ, List, ◌∷◌, if◌then◌else◌, Some, None, slice_get, option_map, false};
ghost use Rattle.std.specs.List.{list_any};
ghost use Rattle.c_tree.specs.Bare as bare;
ghost use Rattle.c_tree.specs.Expressions.{place_of};
ghost use Rattle.c_tree.specs.declared.program.Program as tree;
ghost use Rattle.c_meaning.specs.Shown.{shown};
ghost use Rattle.c_meaning.specs.State.{frame};
ghost use Rattle.c_meaning.specs.Places.{condition_at};
ghost use Rattle.c_meaning.specs.Step.{awoken};
ghost use Rattle.c_meaning.specs.Waits.{waited, waits_on, all_awakened, signalled_to};
ghost use Rattle.c_steps.specs.Model.{state_of};
ghost use Rattle.c_steps.specs.Answers.{Steps};
ghost use Rattle.c_steps.specs.Kept.{IsStateOf};
ghost use Rattle.c_steps.specs.Standing.{At, does};
ghost use Rattle.state_parts.specs.Small.{IsSmallPlace};
ghost use Rattle.state_parts.specs.Waiting.{mutex_waiting};

use crate::state::{State, Stepped};
use c_meaning::Did;
use c_tree::{Place, Program};
use state_parts::frames::Onward;
use state_parts::threads::Doing;
use state_parts::waiting::{awaken_all, mutex_waiting, waits_on};

impl State {
    /// What a thread does.
    pub(crate) fn doing(&self, t: usize) -> Option<Doing>
        ensures { result ≡ option_map (λ thread. thread.doing) (slice_get self.now.threads.items t) }
    {
        let thread = self.threads.get(t)?;
        Some(thread.doing)
    }

    /// Whether a thread waits on a condition.
    fn is_awaited(&self, condition: u128) -> bool
        ensures { (p : tree.Program) → result ≡ list_any (waits_on condition) (state_of p self.now).threads }
    {
        for thread in &self.threads {
            if waits_on(thread.doing, condition) {
                return true;
            }
        }
        false
    }

    /// All threads that wait on a condition are woken.
    fn awaken(&mut self, condition: u128)
        ensures is { (p : tree.Program) → state_of p self.new ≡ all_awakened condition (state_of p self.old) }
        ensures kept { (p : tree.Program) → IsStateOf p self.old → IsStateOf p self.new }
    {
        awaken_all(self.threads.as_mut_slice(), condition);
    }

    /// A thread waits: undefined where it doesn't own the mutex.
    fn wait_on(&mut self, p: &Program, t: u32, condition: u128, mutex: usize) -> Stepped
        requires { IsStateOf p.now self.old }
        ensures is { (act : bare.Stmt) (at : At p.now self.old t act)
            → Steps p.now self.old self.new result false (waited (state_of p.now self.old) t (frame at.locals (bare.Cons act at.rest) ∷ at.more) (Some condition) (Some mutex)) }
        ensures kept { IsStateOf p.now self.new }
    {
        if !self.is_owner(t, mutex) {
            return Stepped::Undefined;
        }
        self.turn(
            t,
            Doing::Waiting {
                condition,
                mutex: mutex as u32,
            },
        );
        self.set_owner(mutex, None);
        Stepped::Done(Did::Wait(mutex as u32))
    }

    /// Wait, as a thread's first statement.
    pub(crate) fn wait(&mut self, p: &Program, t: u32, cond: &Place, mutex: &Place) -> Stepped
        requires state { IsStateOf p.now self.old }
        requires cond { IsSmallPlace (place_of cond.now) }
        requires mutex { IsSmallPlace (place_of mutex.now) }
        ensures is { (takes : List ℕ) (at : At p.now self.old t (bare.Wait (place_of cond.now) (place_of mutex.now) takes))
            → Steps p.now self.old self.new result false (does p.now self.old t (bare.Wait (place_of cond.now) (place_of mutex.now) takes) at) }
        ensures kept { IsStateOf p.now self.new }
    {
        let Some(condition) = self.condition_at(p, t, cond) else {
            return Stepped::Undefined;
        };
        match self.mutex_at(p, t, mutex) {
            Some(mutex) => self.wait_on(p, t, condition, mutex),
            None => Stepped::Undefined,
        }
    }

    /// Signal, as a thread's first statement, where it wakes none: enabled where no thread waits on the condition.
    pub(crate) fn signal(&mut self, p: &Program, t: u32, cond: &Place) -> Stepped
        requires state { IsStateOf p.now self.old }
        requires small { IsSmallPlace (place_of cond.now) }
        ensures is { (at : At p.now self.old t (bare.Signal (place_of cond.now)))
            → Steps p.now self.old self.new result false (does p.now self.old t (bare.Signal (place_of cond.now)) at) }
        ensures kept { IsStateOf p.now self.new }
    {
        let Some(condition) = self.condition_at(p, t, cond) else {
            return Stepped::Undefined;
        };
        if self.is_awaited(condition) {
            return Stepped::NotEnabled;
        }
        self.go_on(p, t, Onward::Past);
        Stepped::Done(Did::Signal(None))
    }

    /// Broadcast, as a thread's first statement.
    pub(crate) fn broadcast(&mut self, p: &Program, t: u32, cond: &Place) -> Stepped
        requires state { IsStateOf p.now self.old }
        requires small { IsSmallPlace (place_of cond.now) }
        ensures is { (at : At p.now self.old t (bare.Broadcast (place_of cond.now)))
            → Steps p.now self.old self.new result false (does p.now self.old t (bare.Broadcast (place_of cond.now)) at) }
        ensures kept { IsStateOf p.now self.new }
    {
        let Some(condition) = self.condition_at(p, t, cond) else {
            return Stepped::Undefined;
        };
        self.go_on(p, t, Onward::Past);
        self.awaken(condition);
        Stepped::Done(Did::Broadcast)
    }

    /// A thread signals, and the thread u is woken: enabled where u waits on the condition.
    fn wake_by(&mut self, p: &Program, t: u32, u: u32, condition: u128) -> Stepped
        requires { IsStateOf p.now self.old }
        ensures is { (act : bare.Stmt) (at : At p.now self.old t act)
            → Steps p.now self.old self.new result false (signalled_to (state_of p.now self.old) t (frame at.locals at.rest ∷ at.more) u (Some condition)) }
        ensures kept { IsStateOf p.now self.new }
    {
        let Some(doing) = self.doing(u as usize) else {
            return Stepped::NotEnabled;
        };
        match mutex_waiting(doing, condition) {
            Some(mutex) => {
                self.go_on(p, t, Onward::Past);
                self.turn(u, Doing::Reacquiring { mutex, taken: 0 });
                Stepped::Done(Did::Signal(Some(u)))
            }
            None => Stepped::NotEnabled,
        }
    }

    /// A thread whose first statement is a signal wakes the thread u by it.
    pub(crate) fn choose(&mut self, p: &Program, t: u32, u: u32, cond: &Place) -> Stepped
        requires state { IsStateOf p.now self.old }
        requires small { IsSmallPlace (place_of cond.now) }
        ensures is { (at : At p.now self.old t (bare.Signal (place_of cond.now)))
            → Steps p.now self.old self.new result false (signalled_to (state_of p.now self.old) t (frame at.locals at.rest ∷ at.more) u (condition_at (shown p.now) (state_of p.now self.old) at.locals (place_of cond.now))) }
        ensures kept { IsStateOf p.now self.new }
    {
        match self.condition_at(p, t, cond) {
            Some(condition) => self.wake_by(p, t, u, condition),
            None => Stepped::Undefined,
        }
    }

    /// A waiting thread wakes without a signal.
    pub(crate) fn wake(&mut self, t: u32) -> Stepped
        ensures is { (p : tree.Program) → Steps p self.old self.new result false (awoken (state_of p self.old) t (slice_get (state_of p self.old).threads t)) }
        ensures kept { (p : tree.Program) → IsStateOf p self.old → IsStateOf p self.new }
    {
        match self.doing(t as usize) {
            Some(Doing::Waiting { mutex, .. }) => {
                self.turn(t, Doing::Reacquiring { mutex, taken: 0 });
                Stepped::Done(Did::Wake)
            }
            _ => Stepped::NotEnabled,
        }
    }
}
