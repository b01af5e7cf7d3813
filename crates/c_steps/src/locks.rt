// Mutexes and monitors: lock, unlock, take and give.
ghost use Rattle.std.specs.Prelude.{◌≡◌, ◌∷◌, ◌<◌, ◌+◌, ℕ, List, length, map, IfSome, Some, None, slice_get, slice_set, option_map, if◌then◌else◌, false};
ghost use Rattle.c_tree.specs.Bare as bare;
ghost use Rattle.c_tree.specs.Expressions.{place_of};
ghost use Rattle.c_tree.specs.declared.program.Program as tree;
ghost use Rattle.c_meaning.specs.State.{Running, frame, goes_on};
ghost use Rattle.c_meaning.specs.Locks.{locked, unlocked, held_by, holding};
ghost use Rattle.c_meaning.specs.Stuck.{is_owner};
ghost use Rattle.c_steps.specs.Model.{state_of};
ghost use Rattle.c_steps.specs.Answers.{Steps};
ghost use Rattle.c_steps.specs.Kept.{IsStateOf};
ghost use Rattle.c_steps.specs.Standing.{At, does};
ghost use Rattle.state_parts.specs.Small.{IsSmallPlace};
ghost use Rattle.state_parts.specs.Onward.{onward};

use crate::state::{State, Stepped};
use c_meaning::Did;
use c_tree::{Place, Program};
use state_parts::frames::Onward;
use state_parts::tokens::{capacity, has_room, held_by, set_held};

impl State {
    /// The owner of a mutex, where there is such a mutex.
    pub(crate) fn owner(&self, mutex: usize) -> Option<Option<u32>>
        ensures { result ≡ slice_get self.now.owners.items mutex }
    {
        self.owners.get(mutex).copied()
    }

    /// Whether a thread owns a mutex.
    pub(crate) fn is_owner(&self, t: u32, mutex: usize) -> bool
        ensures { result ≡ is_owner t (slice_get self.now.owners.items mutex) }
    {
        match self.owner(mutex) {
            Some(Some(owner)) => owner == t,
            Some(None) => false,
            None => false,
        }
    }

    /// A mutex has another owner, or none.
    pub(crate) fn set_owner(&mut self, mutex: usize, owner: Option<u32>)
        ensures is { (p : tree.Program) → state_of p self.new ≡ record (state_of p self.old) { owners = slice_set self.old.owners.items mutex owner } }
        ensures kept { (p : tree.Program) → IsStateOf p self.old → IfSome owner (λ u. u < length self.old.threads.items) → IsStateOf p self.new }
    {
        if let Some(place) = self.owners.get_mut(mutex) {
            *place = owner;
        }
    }

    /// The tokens of a monitor that each thread holds.
    pub(crate) fn row(&self, monitor: u32) -> Option<&[u32]>
        ensures { option_map (λ row. row.now) result ≡ slice_get (map (λ row. row.items) self.now.tokens.items) monitor }
    {
        let row = self.tokens.get(monitor as usize)?;
        Some(row.as_slice())
    }

    /// A thread holds so many tokens of a monitor.
    pub(crate) fn set_row(&mut self, monitor: u32, t: u32, held: u32)
        ensures is { (p : tree.Program) (row : List ℕ) → slice_get (state_of p self.old).tokens monitor ≡ Some row
            → state_of p self.new ≡ record (state_of p self.old) { tokens = slice_set (state_of p self.old).tokens monitor (slice_set row t held) } }
        ensures kept { (p : tree.Program) → IsStateOf p self.old → IsStateOf p self.new }
    {
        if let Some(row) = self.tokens.get_mut(monitor as usize) {
            set_held(row, t, held);
        }
    }

    /// A thread goes on from its first statement, and a mutex has another owner, or none.
    pub(crate) fn go_on_owning(
        &mut self,
        p: &Program,
        t: u32,
        mutex: usize,
        owner: Option<u32>,
        to: Onward,
    )
        requires { IsStateOf p.now self.old }
        ensures goes { (act : bare.Stmt) (at : At p.now self.old t act)
            → state_of p.now self.new ≡ record (goes_on (state_of p.now self.old) t (frame at.locals (onward to act at.rest) ∷ at.more)) { owners = slice_set self.old.owners.items mutex owner } }
        ensures kept { (act : bare.Stmt) → At p.now self.old t act → IfSome owner (λ u. u ≡ t) → IsStateOf p.now self.new }
    {
        self.go_on(p, t, to);
        self.set_owner(mutex, owner);
    }

    /// A thread goes on, and holds so many tokens of a monitor.
    fn go_on_holding(&mut self, p: &Program, t: u32, monitor: u32, held: u32)
        requires { IsStateOf p.now self.old }
        ensures goes { (act : bare.Stmt) (at : At p.now self.old t act) (row : List ℕ) → slice_get (state_of p.now self.old).tokens monitor ≡ Some row
            → state_of p.now self.new ≡ holding (state_of p.now self.old) t (Running (frame at.locals at.rest ∷ at.more)) monitor row held }
        ensures kept { IsStateOf p.now self.new }
    {
        self.go_on(p, t, Onward::Past);
        self.set_row(monitor, t, held);
    }

    /// A thread locks a mutex: enabled where the mutex has no owner.
    fn lock_mutex(&mut self, p: &Program, t: u32, mutex: usize) -> Stepped
        requires { IsStateOf p.now self.old }
        ensures is { (act : bare.Stmt) (at : At p.now self.old t act)
            → Steps p.now self.old self.new result false (locked (state_of p.now self.old) t (frame at.locals at.rest ∷ at.more) (Some mutex)) }
        ensures kept { (act : bare.Stmt) → At p.now self.old t act → IsStateOf p.now self.new }
    {
        match self.owner(mutex) {
            Some(None) => {
                self.go_on_owning(p, t, mutex, Some(t), Onward::Past);
                Stepped::Done(Did::Lock(mutex as u32))
            }
            Some(Some(_)) => Stepped::NotEnabled,
            None => Stepped::Undefined,
        }
    }

    /// Lock, as a thread's first statement.
    pub(crate) fn lock(&mut self, p: &Program, t: u32, place: &Place) -> Stepped
        requires state { IsStateOf p.now self.old }
        requires small { IsSmallPlace (place_of place.now) }
        ensures is { (at : At p.now self.old t (bare.Lock (place_of place.now)))
            → Steps p.now self.old self.new result false (does p.now self.old t (bare.Lock (place_of place.now)) at) }
        ensures kept { (act : bare.Stmt) → At p.now self.old t act → IsStateOf p.now self.new }
    {
        match self.mutex_at(p, t, place) {
            Some(mutex) => self.lock_mutex(p, t, mutex),
            None => Stepped::Undefined,
        }
    }

    /// A thread unlocks a mutex: undefined where it doesn't own the mutex.
    fn unlock_mutex(&mut self, p: &Program, t: u32, mutex: usize) -> Stepped
        requires { IsStateOf p.now self.old }
        ensures is { (act : bare.Stmt) (at : At p.now self.old t act)
            → Steps p.now self.old self.new result false (unlocked (state_of p.now self.old) t (frame at.locals at.rest ∷ at.more) (Some mutex)) }
        ensures kept { (act : bare.Stmt) → At p.now self.old t act → IsStateOf p.now self.new }
    {
        if !self.is_owner(t, mutex) {
            return Stepped::Undefined;
        }
        self.go_on_owning(p, t, mutex, None, Onward::Past);
        Stepped::Done(Did::Unlock(mutex as u32))
    }

    /// Unlock, as a thread's first statement.
    pub(crate) fn unlock(&mut self, p: &Program, t: u32, place: &Place) -> Stepped
        requires state { IsStateOf p.now self.old }
        requires small { IsSmallPlace (place_of place.now) }
        ensures is { (at : At p.now self.old t (bare.Unlock (place_of place.now)))
            → Steps p.now self.old self.new result false (does p.now self.old t (bare.Unlock (place_of place.now)) at) }
        ensures kept { (act : bare.Stmt) → At p.now self.old t act → IsStateOf p.now self.new }
    {
        match self.mutex_at(p, t, place) {
            Some(mutex) => self.unlock_mutex(p, t, mutex),
            None => Stepped::Undefined,
        }
    }

    /// Take, as a thread's first statement: enabled where a token is free.
    pub(crate) fn take(&mut self, p: &Program, t: u32, monitor: u32) -> Stepped
        requires { IsStateOf p.now self.old }
        ensures is { (at : At p.now self.old t (bare.Take monitor))
            → Steps p.now self.old self.new result false (does p.now self.old t (bare.Take monitor) at) }
        ensures kept { IsStateOf p.now self.new }
    {
        let Some(capacity) = capacity(p, monitor) else {
            return Stepped::Undefined;
        };
        let Some(row) = self.row(monitor) else {
            return Stepped::Undefined;
        };
        if !has_room(row, capacity) {
            return Stepped::NotEnabled;
        }
        let held = held_by(row, t) + 1;
        self.go_on_holding(p, t, monitor, held);
        Stepped::Done(Did::Take(monitor))
    }

    /// Give, as a thread's first statement: undefined where the thread holds no token of the monitor.
    pub(crate) fn give(&mut self, p: &Program, t: u32, monitor: u32) -> Stepped
        requires { IsStateOf p.now self.old }
        ensures is { (at : At p.now self.old t (bare.Give monitor))
            → Steps p.now self.old self.new result false (does p.now self.old t (bare.Give monitor) at) }
        ensures kept { IsStateOf p.now self.new }
    {
        let Some(row) = self.row(monitor) else {
            return Stepped::Undefined;
        };
        let held = held_by(row, t);
        if held == 0 {
            return Stepped::Undefined;
        }
        self.go_on_holding(p, t, monitor, held - 1);
        Stepped::Done(Did::Give(monitor))
    }

    /// Init of a mutex, as a thread's first statement.
    pub(crate) fn init_mutex(&mut self, p: &Program, t: u32, place: &Place) -> Stepped
        requires state { IsStateOf p.now self.old }
        requires small { IsSmallPlace (place_of place.now) }
        ensures is { (at : At p.now self.old t (bare.InitMutex (place_of place.now)))
            → Steps p.now self.old self.new result false (does p.now self.old t (bare.InitMutex (place_of place.now)) at) }
        ensures kept { IsStateOf p.now self.new }
    {
        match self.mutex_at(p, t, place) {
            Some(_) => {
                self.go_on(p, t, Onward::Past);
                Stepped::Done(Did::Step)
            }
            None => Stepped::Undefined,
        }
    }

    /// Init of a condition, as a thread's first statement.
    pub(crate) fn init_condition(&mut self, p: &Program, t: u32, place: &Place) -> Stepped
        requires state { IsStateOf p.now self.old }
        requires small { IsSmallPlace (place_of place.now) }
        ensures is { (at : At p.now self.old t (bare.InitCond (place_of place.now)))
            → Steps p.now self.old self.new result false (does p.now self.old t (bare.InitCond (place_of place.now)) at) }
        ensures kept { IsStateOf p.now self.new }
    {
        match self.condition_at(p, t, place) {
            Some(_) => {
                self.go_on(p, t, Onward::Past);
                Stepped::Done(Did::Step)
            }
            None => Stepped::Undefined,
        }
    }
}
