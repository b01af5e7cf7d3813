// Trylocks.
ghost use Rattle.std.specs.Prelude.{◌≡◌, ◌∷◌, Some, false};
ghost use Rattle.c_tree.specs.Bare as bare;
ghost use Rattle.c_tree.specs.Bare.{Stmts, before};
ghost use Rattle.c_tree.specs.Expressions as tree;
ghost use Rattle.c_tree.specs.Expressions.{place_of};
ghost use Rattle.c_meaning.specs.State.{frame};
ghost use Rattle.c_meaning.specs.Locks.{tried};
ghost use Rattle.c_steps.specs.Model.{state_of};
ghost use Rattle.c_steps.specs.Answers.{Steps};
ghost use Rattle.c_steps.specs.Kept.{IsStateOf};
ghost use Rattle.c_steps.specs.Standing.{At, does};
ghost use Rattle.state_parts.specs.Small.{IsSmallPlace};

use crate::state::{State, Stepped};
use c_frames::Arm;
use c_meaning::Did;
use c_tree::{Place, Program};
use state_parts::frames::Onward;

impl State {
    /// A thread tries to lock a mutex: it locks it where it has no owner, and goes on without it where it has one.
    fn try_mutex(&mut self, p: &Program, t: u32, mutex: usize) -> Stepped
        requires { IsStateOf p.now self.old }
        ensures is { (place : tree.Place) (taken busy : Stmts) (at : At p.now self.old t (bare.TryLock place taken busy))
            → Steps p.now self.old self.new result false (tried (state_of p.now self.old) t (frame at.locals (before taken at.rest) ∷ at.more) (frame at.locals (before busy at.rest) ∷ at.more) (Some mutex)) }
        ensures kept { (act : bare.Stmt) → At p.now self.old t act → IsStateOf p.now self.new }
    {
        match self.owner(mutex) {
            Some(None) => {
                self.go_on_owning(p, t, mutex, Some(t), Onward::Into(Arm::Then));
                Stepped::Done(Did::Lock(mutex as u32))
            }
            Some(Some(_)) => {
                self.go_on(p, t, Onward::Into(Arm::Else));
                Stepped::Done(Did::Step)
            }
            None => Stepped::Undefined,
        }
    }

    /// Trylock, as a thread's first statement: goes into the arm for a mutex that it took, or for a busy one.
    pub(crate) fn try_lock(&mut self, p: &Program, t: u32, place: &Place) -> Stepped
        requires state { IsStateOf p.now self.old }
        requires small { IsSmallPlace (place_of place.now) }
        ensures is { (taken busy : Stmts) (at : At p.now self.old t (bare.TryLock (place_of place.now) taken busy))
            → Steps p.now self.old self.new result false (does p.now self.old t (bare.TryLock (place_of place.now) taken busy) at) }
        ensures kept { (act : bare.Stmt) → At p.now self.old t act → IsStateOf p.now self.new }
    {
        match self.mutex_at(p, t, place) {
            Some(mutex) => self.try_mutex(p, t, mutex),
            None => Stepped::Undefined,
        }
    }
}
