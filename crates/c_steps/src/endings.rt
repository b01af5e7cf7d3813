// How calls and threads end.
ghost use Rattle.std.specs.Prelude.{◌≡◌, ℕ, Bool, List, [], ◌∷◌, option_map, IfSome, false};
ghost use Rattle.c_tree.specs.Bare as bare;
ghost use Rattle.c_tree.specs.Bare.{Stmts, Cons};
ghost use Rattle.c_tree.specs.Expressions.{value_of, place_of, target_of};
ghost use Rattle.c_tree.specs.declared.program.Program as tree;
ghost use Rattle.c_meaning.specs.Shown.{shown, shown_stmt};
ghost use Rattle.c_meaning.specs.State as run;
ghost use Rattle.c_meaning.specs.Calls.{frame_ended, call_ended, result_set};
ghost use Rattle.c_meaning.specs.Places.{target_at};
ghost use Rattle.c_meaning.specs.Outcome.{Done};
ghost use Rattle.c_meaning.specs.declared.Did.TheVariants.{End};
ghost use Rattle.c_steps.specs.Setting.{MaySet};
ghost use Rattle.c_frames.specs.Names.{target};
ghost use Rattle.c_frames.specs.Positions.{first_of};
ghost use Rattle.c_steps.specs.Standing.{At, does};
ghost use Rattle.c_steps.specs.Answers.{Steps};
ghost use Rattle.c_steps.specs.Model.{state_of};
ghost use Rattle.c_steps.specs.Kept.{IsStateOf};
ghost use Rattle.c_steps.specs.Running.{Runs, MaySetBelow};
ghost use Rattle.state_parts.specs.Small.{IsSmall, IsSmallIfAny, IsSmallTarget};
ghost use Rattle.state_parts.specs.Targets.{shown_target, IsTargetOf, IsPlaceIfAny};

use crate::state::{State, Stepped};
use c_meaning::Did;
use c_tree::{Act, Expr, Place, Program, Stmt};
use state_parts::first::First;
use state_parts::frames::Onward;
use state_parts::target::{Target, find_target};
use state_parts::threads::Doing;

impl State {
    /// A thread ends, and main's end is the program's.
    fn end_thread(&mut self, t: u32)
        ensures ends { (p : tree.Program) (newest : run.Frame) → Runs p self.old t newest [] → frame_ended (shown p) (state_of p self.old) t [] None ≡ Done End (state_of p self.new) }
        ensures kept { (p : tree.Program) → IsStateOf p self.old → IsStateOf p self.new }
    {
        self.turn(t, Doing::Ended);
        self.main_ended = self.main_ended || t == 0;
    }

    /// A thread's newest frame is dropped.
    fn leave(&mut self, t: u32)
        ensures leaves { (p : tree.Program) (newest : run.Frame) (more : List run.Frame) → Runs p self.old t newest more
            → (state_of p self.new ≡ run.goes_on (state_of p self.old) t more) }
        ensures runs { (p : tree.Program) (newest f : run.Frame) (more : List run.Frame) → Runs p self.old t newest (f ∷ more) → Runs p self.new t f more }
        ensures may { (name : List ℕ) → MaySetBelow self.old t name → MaySet self.new t name }
        ensures kept { (p : tree.Program) → IsStateOf p self.old → IsStateOf p self.new }
    {
        if let Some(thread) = self.threads.get_mut(t as usize) {
            let _newest = thread.frames.pop();
        }
    }

    /// The target at a place, in the frame below a thread's newest one.
    fn target_below<'a>(&self, p: &Program, t: u32, place: &'a Place) -> Option<Target<'a>>
        requires state { IsStateOf p.now self.now }
        requires small { IsSmallIfAny (value_of place.now.index) }
        ensures named { IfSome result (IsTargetOf place.now.name) }
        ensures is { (newest f : run.Frame) (more : List run.Frame) → Runs p.now self.now t newest (f ∷ more)
            → option_map shown_target result ≡ target_at (shown p.now) (state_of p.now self.now) f.locals (place_of place.now) }
    {
        find_target(&self.view(p, t, 1)?, place)
    }

    /// The result of a call goes to its target, where it has one, and the caller goes on.
    fn give_back(
        &mut self,
        p: &Program,
        t: u32,
        target: &Option<Place>,
        gives: Option<i32>,
    ) -> Stepped
        requires state { IsStateOf p.now self.old }
        requires small { IsSmallTarget (target_of target.now) }
        requires may { IsPlaceIfAny (λ place. MaySetBelow self.old t place.name) target.now }
        ensures is { (newest : run.Frame) (locals : run.Locals) (call : bare.Stmt) (rest : Stmts) (more : List run.Frame) → Runs p.now self.old t newest (run.frame locals (Cons call rest) ∷ more)
            → Steps p.now self.old self.new result false (result_set (shown p.now) (state_of p.now self.old) t locals rest more (target_of target.now) gives) }
        ensures kept { IsStateOf p.now self.new }
    {
        let Some(place) = target else {
            self.leave(t);
            self.go_on(p, t, Onward::Past);
            return Stepped::Done(Did::Step);
        };
        let Some(target) = self.target_below(p, t, place) else {
            return Stepped::Undefined;
        };
        let Some(z) = gives else {
            return Stepped::Undefined;
        };
        self.leave(t);
        self.set(p, t, target, z, Onward::Past);
        Stepped::Done(Did::Step)
    }

    /// A thread's newest frame is dropped, with its result if it has one; in the last frame the thread ends.
    pub(crate) fn finish(&mut self, p: &Program, t: u32, gives: Option<i32>) -> Stepped
        requires { IsStateOf p.now self.old }
        ensures is { (newest : run.Frame) (more : List run.Frame) → Runs p.now self.old t newest more
            → Steps p.now self.old self.new result false (frame_ended (shown p.now) (state_of p.now self.old) t more gives) }
        ensures kept { IsStateOf p.now self.new }
    {
        match self.first(p, t, 1) {
            First::Nothing => {
                self.end_thread(t);
                Stepped::Done(Did::End)
            }
            First::End => Stepped::Undefined,
            First::At(s, _) => self.end_call(p, t, s, gives),
        }
    }

    /// The call that is first in the frame below a thread's newest one ends.
    fn end_call(&mut self, p: &Program, t: u32, s: &Stmt, gives: Option<i32>) -> Stepped
        requires state { IsStateOf p.now self.old }
        requires small { IsSmall (shown_stmt s.now) }
        requires may { IfSome (target (shown_stmt s.now)) (MaySetBelow self.old t) }
        ensures is { (newest : run.Frame) (locals : run.Locals) (begun : Bool) (rest : Stmts) (more : List run.Frame)
            → Runs p.now self.old t newest (run.frame locals (Cons (first_of begun (shown_stmt s.now)) rest) ∷ more)
            → Steps p.now self.old self.new result false (call_ended (shown p.now) (state_of p.now self.old) t locals more gives (Cons (first_of begun (shown_stmt s.now)) rest)) }
        ensures kept { IsStateOf p.now self.new }
    {
        match &s.act {
            Act::Call { target, .. } => self.give_back(p, t, target, gives),
            _ => Stepped::Undefined,
        }
    }

    /// A return: ends the frame.
    pub(crate) fn return_from(&mut self, p: &Program, t: u32, value: &Option<Expr>) -> Stepped
        requires state { IsStateOf p.now self.old }
        requires small { IsSmallIfAny (value_of value.now) }
        ensures is { (at : At p.now self.old t (bare.Return (value_of value.now)))
            → Steps p.now self.old self.new result false (does p.now self.old t (bare.Return (value_of value.now)) at) }
        ensures kept { IsStateOf p.now self.new }
    {
        match self.evaluated_if_any(p, t, value) {
            None => Stepped::Undefined,
            Some(gives) => self.finish(p, t, gives),
        }
    }
}
