// Declarations, assignments and reads.
ghost use Rattle.std.specs.Prelude.{◌≡◌, ◌+◌, ◌<◌, ◌^◌, slice_get, IsSome, false};
ghost use Rattle.c_tree.specs.Bare as bare;
ghost use Rattle.c_tree.specs.Expressions.{expr_of, value_of, place_of};
ghost use Rattle.c_meaning.specs.Numbers.{HasSmallNumbers};
ghost use Rattle.c_meaning.specs.Shown.{shown};
ghost use Rattle.c_meaning.specs.Places.{evaluated, evaluated_if_any, target_at};
ghost use Rattle.c_meaning.specs.Setting.{declared_local, assigned};
ghost use Rattle.state_parts.specs.Onward.{onward};
ghost use Rattle.c_steps.specs.Answers.{Steps};
ghost use Rattle.c_steps.specs.Model.{state_of};
ghost use Rattle.c_steps.specs.Kept.{IsStateOf};
ghost use Rattle.c_steps.specs.Setting.{MaySet};
ghost use Rattle.state_parts.specs.Small.{IsSmallIfAny};
ghost use Rattle.c_steps.specs.Standing.{At, does};

use crate::state::{State, Stepped};
use c_meaning::Did;
use c_tree::{Expr, Name, Place, Program};
use state_parts::frames::Onward;

impl State {
    /// A declaration: sets the local, or takes its value away, and goes on.
    pub(crate) fn declare(
        &mut self,
        p: &Program,
        t: u32,
        name: &Name,
        value: &Option<Expr>,
        to: Onward,
    ) -> Stepped
        requires state { IsStateOf p.now self.old }
        requires small { IsSmallIfAny (value_of value.now) }
        requires may { MaySet self.old t name.now }
        ensures is { (act : bare.Stmt) (at : At p.now self.old t act)
            → Steps p.now self.old self.new result false (declared_local (state_of p.now self.old) t at.locals (onward to act at.rest) at.more name.now (evaluated_if_any (shown p.now) (state_of p.now self.old) at.locals (value_of value.now))) }
        ensures kept { IsStateOf p.now self.new }
    {
        let Some(value) = self.evaluated_if_any(p, t, value) else {
            return Stepped::Undefined;
        };
        self.set_local(p, t, name.as_slice(), value, to);
        Stepped::Done(Did::Step)
    }

    /// An assignment: sets the cell or the local, and goes on.
    pub(crate) fn assign(
        &mut self,
        p: &Program,
        t: u32,
        place: &Place,
        e: &Expr,
        to: Onward,
    ) -> Stepped
        requires state { IsStateOf p.now self.old }
        requires small_place { IsSmallIfAny (value_of place.now.index) }
        requires small { HasSmallNumbers (expr_of e.now) }
        requires may { MaySet self.old t place.now.name }
        ensures is { (act : bare.Stmt) (at : At p.now self.old t act)
            → Steps p.now self.old self.new result false (assigned (state_of p.now self.old) t at.locals (onward to act at.rest) at.more (target_at (shown p.now) (state_of p.now self.old) at.locals (place_of place.now)) (evaluated (shown p.now) (state_of p.now self.old) at.locals (expr_of e.now))) }
        ensures kept { IsStateOf p.now self.new }
    {
        let Some(target) = self.target_at(p, t, place) else {
            return Stepped::Undefined;
        };
        let Some(z) = self.evaluated(p, t, e) else {
            return Stepped::Undefined;
        };
        self.set(p, t, target, z, to);
        Stepped::Done(Did::Step)
    }

    /// A read: sets the target to the next number of the input, where there is one.
    pub(crate) fn read(&mut self, p: &Program, t: u32, place: &Place) -> Stepped
        requires state { IsStateOf p.now self.old }
        requires small { IsSmallIfAny (value_of place.now.index) }
        requires may { MaySet self.old t place.now.name }
        ensures is { (at : At p.now self.old t (bare.Read (place_of place.now)))
            → Steps p.now self.old self.new result false (does p.now self.old t (bare.Read (place_of place.now)) at) }
        ensures kept { IsStateOf p.now self.new }
    {
        let Some(target) = self.target_at(p, t, place) else {
            return Stepped::Undefined;
        };
        match self.next_number() {
            None => self.go_on(p, t, Onward::Past),
            Some(z) => {
                self.read += 1;
                self.set(p, t, target, z, Onward::Past);
            }
        }
        Stepped::Done(Did::Read)
    }

    /// The next number of the input, where there is one.
    fn next_number(&self) -> Option<i32>
        ensures is { result ≡ slice_get self.now.input self.now.read }
        ensures within { IsSome result → self.now.read + 1 < 2 ^ 64 }
    {
        self.input.as_slice().get(self.read).copied()
    }
}
