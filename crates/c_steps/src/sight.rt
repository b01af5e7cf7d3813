// What the expressions and places of a thread's first statement stand for.
ghost use Rattle.std.specs.Prelude.{◌≡◌, IfSome, IsSomeAnd, Some, slice_get, option_map, reverse, MatchOption};
ghost use Rattle.c_tree.specs.Bare as bare;
ghost use Rattle.c_tree.specs.Expressions.{expr_of, value_of, place_of};
ghost use Rattle.c_tree.specs.declared.program.Program as tree;
ghost use Rattle.c_meaning.specs.Shown.{shown};
ghost use Rattle.c_meaning.specs.State as run;
ghost use Rattle.c_meaning.specs.Numbers.{HasSmallNumbers};
ghost use Rattle.c_meaning.specs.Places.{evaluated, evaluated_if_any, mutex_at, condition_at, target_at};
ghost use Rattle.state_parts.specs.declared.threads.Thread as thread;
ghost use Rattle.state_parts.specs.Threads.{frame_in, frames_in};
ghost use Rattle.c_steps.specs.Model.{state_of};
ghost use Rattle.state_parts.specs.First.{IsFirst, IsSmallFirst};
ghost use Rattle.state_parts.specs.Valid.{IsFrameIn};
ghost use Rattle.c_steps.specs.Kept.{IsStateOf};
ghost use Rattle.c_steps.specs.Standing.{At};
ghost use Rattle.c_steps.specs.Sight.{Sees};
ghost use Rattle.state_parts.specs.Small.{IsSmallIfAny};
ghost use Rattle.state_parts.specs.Targets.{shown_target, IsTargetOf};

use crate::state::State;
use c_frames::Frame;
use c_tree::{Expr, Place, Program};
use state_parts::first::{First, first_in};
use state_parts::target::{Target, find_target};
use state_parts::view::View;

impl State {
    /// A thread's newest frame, or the one that is so many below it.
    pub(crate) fn frame(&self, t: u32, below: usize) -> Option<&Frame>
        ensures is { (p : tree.Program) (thread : thread.Thread) → slice_get self.now.threads.items t ≡ Some thread
            → option_map (λ x. frame_in p self.now.tables x.now) result ≡ slice_get (frames_in p self.now.tables thread.frames.items) below }
        ensures same { (thread : thread.Thread) → slice_get self.now.threads.items t ≡ Some thread
            → option_map (λ x. x.now) result ≡ slice_get (reverse thread.frames.items) below }
        ensures valid { (p : tree.Program) → IsStateOf p self.now → IfSome result (λ x. IsFrameIn p self.now.tables x.now) }
    {
        self.threads.get(t as usize)?.frame(below)
    }

    /// What comes first in a thread's newest frame, or in the one that is so many below it.
    pub(crate) fn first<'a>(&self, p: &'a Program, t: u32, below: usize) -> First<'a>
        requires { IsStateOf p.now self.now }
        ensures small { IsSmallFirst result }
        ensures is { (thread : thread.Thread) → slice_get self.now.threads.items t ≡ Some thread
            → MatchOption (slice_get (reverse thread.frames.items) below) (result ≡ First.Nothing) (λ x. IsFirst p.now self.now.tables x result) }
    {
        match self.frame(t, below) {
            None => First::Nothing,
            Some(x) => first_in(p, &self.tables, x),
        }
    }

    /// What is seen from a frame.
    fn view_from<'a>(&'a self, p: &'a Program, x: &'a Frame) -> Option<View<'a>>
        requires state { IsStateOf p.now self.now }
        requires valid { IsFrameIn p.now self.now.tables x.now }
        ensures { IsSomeAnd result (Sees p.now self.now (frame_in p.now self.now.tables x.now).locals) }
    {
        let names = self.tables.names.get(x.function())?;
        Some(View {
            program: p,
            numbers: &self.tables.numbers,
            cells: self.cells.as_slice(),
            names,
            frame: x,
        })
    }

    /// What is seen from a thread's newest frame, or from the one that is so many below it.
    pub(crate) fn view<'a>(&'a self, p: &'a Program, t: u32, below: usize) -> Option<View<'a>>
        requires { IsStateOf p.now self.now }
        ensures { (thread : thread.Thread) (f : run.Frame) → slice_get self.now.threads.items t ≡ Some thread
            → slice_get (frames_in p.now self.now.tables thread.frames.items) below ≡ Some f → IsSomeAnd result (Sees p.now self.now f.locals) }
    {
        self.view_from(p, self.frame(t, below)?)
    }

    /// The value of an expression, and none where it is undefined.
    pub(crate) fn evaluated(&self, p: &Program, t: u32, e: &Expr) -> Option<i32>
        requires state { IsStateOf p.now self.now }
        requires small { HasSmallNumbers (expr_of e.now) }
        ensures { (act : bare.Stmt) (at : At p.now self.now t act) → result ≡ evaluated (shown p.now) (state_of p.now self.now) at.locals (expr_of e.now) }
    {
        self.view(p, t, 0)?.value(e)
    }

    /// The value of an expression that may be left out, and none where it is undefined.
    pub(crate) fn evaluated_if_any(
        &self,
        p: &Program,
        t: u32,
        e: &Option<Expr>,
    ) -> Option<Option<i32>>
        requires state { IsStateOf p.now self.now }
        requires small { IsSmallIfAny (value_of e.now) }
        ensures { (act : bare.Stmt) (at : At p.now self.now t act)
            → result ≡ evaluated_if_any (shown p.now) (state_of p.now self.now) at.locals (value_of e.now) }
    {
        self.view(p, t, 0)?.value_if_any(e)
    }

    /// The mutex at a place, and none where the place is undefined.
    pub(crate) fn mutex_at(&self, p: &Program, t: u32, place: &Place) -> Option<usize>
        requires state { IsStateOf p.now self.now }
        requires small { IsSmallIfAny (value_of place.now.index) }
        ensures { (act : bare.Stmt) (at : At p.now self.now t act) → result ≡ mutex_at (shown p.now) (state_of p.now self.now) at.locals (place_of place.now) }
    {
        self.view(p, t, 0)?.mutex(place)
    }

    /// The condition at a place, and none where the place is undefined.
    pub(crate) fn condition_at(&self, p: &Program, t: u32, place: &Place) -> Option<u128>
        requires state { IsStateOf p.now self.now }
        requires small { IsSmallIfAny (value_of place.now.index) }
        ensures { (act : bare.Stmt) (at : At p.now self.now t act) → result ≡ condition_at (shown p.now) (state_of p.now self.now) at.locals (place_of place.now) }
    {
        self.view(p, t, 0)?.condition(place)
    }

    /// The target at a place, and none where the place is undefined.
    pub(crate) fn target_at<'a>(&self, p: &Program, t: u32, place: &'a Place) -> Option<Target<'a>>
        requires state { IsStateOf p.now self.now }
        requires small { IsSmallIfAny (value_of place.now.index) }
        ensures named { IfSome result (IsTargetOf place.now.name) }
        ensures is { (act : bare.Stmt) (at : At p.now self.now t act)
            → option_map shown_target result ≡ target_at (shown p.now) (state_of p.now self.now) at.locals (place_of place.now) }
    {
        find_target(&self.view(p, t, 0)?, place)
    }
}
