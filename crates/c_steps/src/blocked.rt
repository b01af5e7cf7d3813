// Threads that block each other.
ghost use Rattle.std.specs.Prelude.{◌≡◌, ◌<◌, ◌-◌, [], if◌then◌else◌, nat_lt, nat_le, sum, map, drop, unwrap_or, slice_get, Some, None};
ghost use Rattle.c_tree.specs.Expressions.{place_of};
ghost use Rattle.c_tree.specs.Numbering.{mutex_count};
ghost use Rattle.c_meaning.specs.Shown.{shown, shown_stmt};
ghost use Rattle.c_tree.specs.Bare as bare;
ghost use Rattle.c_tree.specs.Bare.{Program as Bare};
ghost use Rattle.c_places.specs.Numbers.{AreNumbersOf};
ghost use Rattle.c_meaning.specs.Places.{mutex_at};
ghost use Rattle.c_meaning.specs.Laws.{blocked_for};
ghost use Rattle.c_meaning.specs.Waits.{takes_of};
ghost use Rattle.c_meaning.specs.Stuck.{monitor_at, acquired_in, needed_again, wanted, is_owned, is_taken, is_holder};
ghost use Rattle.state_parts.specs.declared.threads.Thread as thread;
ghost use Rattle.state_parts.specs.declared.threads.Doing.TheVariants as doing;
ghost use Rattle.state_parts.specs.Threads.{frames_in};
ghost use Rattle.c_steps.specs.Model.{state_of};
ghost use Rattle.c_steps.specs.Kept.{IsStateOf};
ghost use Rattle.c_steps.specs.Standing.{At};
ghost use Rattle.state_parts.specs.Small.{IsSmall, IsSmallPlace};
ghost use Rattle.state_parts.specs.Accepted.{Accepted};
ghost use Rattle.state_parts.specs.Statements.{lock_of, take_of};
ghost use Rattle.c_steps.specs.Acquiring.{acquires};

use crate::state::State;
use c_tree::{Place, Program, Stmt};
use state_parts::first::First;
use state_parts::statements::{lock_of, take_of};
use state_parts::threads::Doing;
use state_parts::tokens::{capacity, has_room, held_by};

impl State {
    /// The monitor of a resource that is no mutex.
    fn monitor_of(&self, r: u32) -> Option<u32>
        ensures { (p : Bare) → AreNumbersOf p self.now.tables.numbers → result ≡ (if nat_lt r (mutex_count p) then None else Some (r - mutex_count p)) }
    {
        let r = r as usize;
        let mutexes = self.tables.numbers.mutexes();
        if r < mutexes {
            None
        } else {
            Some((r - mutexes) as u32)
        }
    }

    /// Whether all tokens of a monitor are held.
    fn is_full(&self, p: &Program, monitor: u32) -> bool
        ensures { result ≡ nat_le (unwrap_or (slice_get p.now.monitors monitor) 0) (sum (unwrap_or (slice_get (map (λ row. row.items) self.now.tokens.items) monitor) [])) }
    {
        let capacity = capacity(p, monitor).unwrap_or(0);
        match self.row(monitor) {
            Some(row) => !has_room(row, capacity),
            None => capacity == 0,
        }
    }

    /// Whether a thread holds a token of a monitor.
    fn holds_of(&self, u: u32, monitor: u32) -> bool
        ensures { result ≡ nat_lt 0 (unwrap_or (slice_get (unwrap_or (slice_get (map (λ row. row.items) self.now.tokens.items) monitor) []) u) 0) }
    {
        match self.row(monitor) {
            Some(row) => 0 < held_by(row, u),
            None => false,
        }
    }

    /// Whether a mutex has an owner.
    fn is_owned(&self, mutex: u32) -> bool
        ensures { result ≡ is_owned (slice_get self.now.owners.items mutex) }
    {
        match self.owner(mutex as usize) {
            Some(Some(_)) => true,
            Some(None) => false,
            None => false,
        }
    }

    /// Whether no token of a resource is free.
    fn is_taken(&self, p: &Program, r: u32) -> bool
        requires { IsStateOf p.now self.now }
        ensures { result ≡ is_taken (shown p.now) (state_of p.now self.now) r }
    {
        match self.monitor_of(r) {
            Some(monitor) => self.is_full(p, monitor),
            None => self.is_owned(r),
        }
    }

    /// Whether a thread holds a token of a resource.
    pub(crate) fn is_holder(&self, p: &Program, u: u32, r: u32) -> bool
        requires { IsStateOf p.now self.now }
        ensures { result ≡ is_holder (shown p.now) (state_of p.now self.now) u r }
    {
        match self.monitor_of(r) {
            Some(monitor) => self.holds_of(u, monitor),
            None => self.is_owner(u, r as usize),
        }
    }

    /// The resource that a lock acquires, where its place is defined.
    fn locked(&self, p: &Program, t: u32, place: &Place) -> Option<u32>
        requires accepted { Accepted p.now }
        requires state { IsStateOf p.now self.now }
        requires small { IsSmallPlace (place_of place.now) }
        ensures { (act : bare.Stmt) (at : At p.now self.now t act) → result ≡ mutex_at (shown p.now) (state_of p.now self.now) at.locals (place_of place.now) }
    {
        let mutex = self.mutex_at(p, t, place)?;
        if mutex <= u32::MAX as usize {
            Some(mutex as u32)
        } else {
            None
        }
    }

    /// The resource that a take acquires, where there is such a monitor.
    fn taken(&self, p: &Program, monitor: u32) -> Option<u32>
        requires accepted { Accepted p.now }
        requires state { IsStateOf p.now self.now }
        ensures { result ≡ monitor_at (shown p.now) monitor }
    {
        let _capacity = capacity(p, monitor)?;
        Some(self.tables.numbers.mutexes() as u32 + monitor)
    }

    /// The resource that a statement acquires, as a thread's first.
    fn acquired_by(&self, p: &Program, t: u32, s: &Stmt) -> Option<u32>
        requires accepted { Accepted p.now }
        requires state { IsStateOf p.now self.now }
        requires small { IsSmall (shown_stmt s.now) }
        ensures { (act : bare.Stmt) (at : At p.now self.now t act)
            → result ≡ acquires (shown p.now) (state_of p.now self.now) at.locals (lock_of (shown_stmt s.now)) (take_of (shown_stmt s.now)) }
    {
        match lock_of(s) {
            Some(place) => self.locked(p, t, place),
            None => self.taken(p, take_of(s)?),
        }
    }

    /// The resource that a running thread's next act locks or takes.
    fn acquired(&self, p: &Program, t: u32) -> Option<u32>
        requires accepted { Accepted p.now }
        requires state { IsStateOf p.now self.now }
        ensures { (thread : thread.Thread) → slice_get self.now.threads.items t ≡ Some thread → thread.doing ≡ doing.Running
            → result ≡ acquired_in (shown p.now) (state_of p.now self.now) (frames_in p.now self.now.tables thread.frames.items) }
    {
        let _doing = self.doing(t as usize)?;
        match self.first(p, t, 0) {
            First::At(s, _) => self.acquired_by(p, t, s),
            First::Nothing => None,
            First::End => None,
        }
    }

    /// The resource that a woken thread acquires first: a token that it still takes, or else its mutex.
    fn needed_again(&self, p: &Program, t: u32, mutex: u32, taken: usize) -> Option<u32>
        requires accepted { Accepted p.now }
        requires state { IsStateOf p.now self.now }
        ensures { (thread : thread.Thread) → slice_get self.now.threads.items t ≡ Some thread
            → result ≡ needed_again (shown p.now) mutex (drop taken (takes_of (frames_in p.now self.now.tables thread.frames.items))) }
    {
        match self.next_take(p, t, taken) {
            Some(monitor) => self.taken(p, monitor),
            None => Some(mutex),
        }
    }

    /// The resource that a thread's next act locks, takes or acquires again.
    fn wanted(&self, p: &Program, t: u32) -> Option<u32>
        requires accepted { Accepted p.now }
        requires state { IsStateOf p.now self.now }
        ensures { result ≡ wanted (shown p.now) (state_of p.now self.now) (slice_get (state_of p.now self.now).threads t) }
    {
        match self.doing(t as usize)? {
            Doing::Running => self.acquired(p, t),
            Doing::Reacquiring { mutex, taken } => self.needed_again(p, t, mutex, taken),
            Doing::NotBegun => None,
            Doing::Waiting { .. } => None,
            Doing::Ended => None,
        }
    }

    /// The resource that a thread is blocked for: its next act locks, takes or acquires it again, and no token of it is
    /// free. None where there is no such resource or no such thread, and after main has ended.
    ///
    /// Resources are numbered: the mutexes in the order of their declarations, each array's members from 0 on, and then
    /// the monitors. It takes no memory.
    pub fn blocked_on(&self, p: &Program, t: u32) -> Option<u32>
        requires accepted { Accepted p.now }
        requires state { IsStateOf p.now self.now }
        ensures { result ≡ blocked_for (shown p.now) (state_of p.now self.now) t }
    {
        if self.main_ended {
            return None;
        }
        let r = self.wanted(p, t)?;
        if self.is_taken(p, r) { Some(r) } else { None }
    }
}
