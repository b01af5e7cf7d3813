// How threads begin and are waited for.
ghost use Rattle.std.specs.Prelude.{◌≡◌, ◌∷◌, ◌<◌, length, Some, true, false};
ghost use Rattle.c_tree.specs.Bare as bare;
ghost use Rattle.c_tree.specs.Expressions.{expr_of, place_of};
ghost use Rattle.c_tree.specs.Numbering.{function_named, thread_in};
ghost use Rattle.c_tree.specs.Values as values;
ghost use Rattle.c_tree.specs.declared.program.Program as tree;
ghost use Rattle.c_meaning.specs.Shown.{shown};
ghost use Rattle.c_meaning.specs.State as run;
ghost use Rattle.c_meaning.specs.State.{frame, with_status};
ghost use Rattle.c_meaning.specs.Threads.{first_frame, created, joined};
ghost use Rattle.c_meaning.specs.Numbers.{HasSmallNumbers};
ghost use Rattle.state_parts.specs.Threads.{frames_in};
ghost use Rattle.c_steps.specs.Model.{state_of};
ghost use Rattle.c_steps.specs.Answers.{Steps};
ghost use Rattle.state_parts.specs.Valid.{AreFramesIn};
ghost use Rattle.c_steps.specs.Kept.{IsStateOf};
ghost use Rattle.c_steps.specs.Standing.{At, does};
ghost use Rattle.state_parts.specs.Waiting.{has_ended};

use crate::state::{State, Stepped};
use c_frames::Frame;
use c_meaning::Did;
use c_tree::{Expr, Place, Program};
use state_parts::frames::Onward;
use state_parts::new_frames::first_frames;
use state_parts::threads::{Doing, Thread};
use state_parts::waiting::has_ended;
use std::alloc::Global;

impl State {
    /// The thread that is created in a slot.
    fn thread_in(&self, p: &Program, slot: &Place) -> Option<usize>
        requires { IsStateOf p.now self.now }
        ensures { result ≡ thread_in (shown p.now) (place_of slot.now) }
    {
        self.tables.numbers.thread(slot)
    }

    /// A thread begins in these frames.
    fn begin(&mut self, u: usize, frames: Vec<Frame>)
        ensures is { (p : tree.Program) → u < length self.old.threads.items → state_of p self.new ≡ with_status (state_of p self.old) u (run.Running (frames_in p self.old.tables frames.items)) }
        ensures kept { (p : tree.Program) → IsStateOf p self.old → AreFramesIn p self.old.tables frames.items → IsStateOf p self.new }
    {
        if let Some(thread) = self.threads.get_mut(u) {
            *thread = Thread {
                doing: Doing::Running,
                frames,
            };
        }
    }

    /// Create, as a thread's first statement: the thread u begins.
    fn create_thread(
        &mut self,
        alloc: Global,
        p: &Program,
        t: u32,
        u: usize,
        name: &[u8],
        arg: &Expr,
    ) -> Stepped
        requires state { IsStateOf p.now self.old }
        requires small { HasSmallNumbers (expr_of arg.now) }
        ensures is { (act : bare.Stmt) (at : At p.now self.old t act)
            → Steps p.now self.old self.new result true (created (state_of p.now self.old) t (frame at.locals at.rest ∷ at.more) (Some u) (first_frame (function_named (shown p.now) name.now) (values.constant (expr_of arg.now)))) }
        ensures kept { IsStateOf p.now self.new }
    {
        let Some(Doing::NotBegun) = self.doing(u) else {
            return Stepped::Undefined;
        };
        match first_frames(alloc, p, &self.tables, name, arg) {
            Ok(Some(frames)) => {
                self.go_on(p, t, Onward::Past);
                self.begin(u, frames);
                Stepped::Done(Did::Create(u as u32))
            }
            Ok(None) => Stepped::Undefined,
            Err(_) => Stepped::Memory,
        }
    }

    /// Create, as a thread's first statement.
    pub(crate) fn create(
        &mut self,
        alloc: Global,
        p: &Program,
        t: u32,
        slot: &Place,
        name: &[u8],
        arg: &Expr,
    ) -> Stepped
        requires state { IsStateOf p.now self.old }
        requires small { HasSmallNumbers (expr_of arg.now) }
        ensures is { (at : At p.now self.old t (bare.Create (place_of slot.now) name.now (expr_of arg.now)))
            → Steps p.now self.old self.new result true (does p.now self.old t (bare.Create (place_of slot.now) name.now (expr_of arg.now)) at) }
        ensures kept { IsStateOf p.now self.new }
    {
        match self.thread_in(p, slot) {
            Some(u) => self.create_thread(alloc, p, t, u, name, arg),
            None => Stepped::Undefined,
        }
    }

    /// A thread waits for the thread u: enabled where u has ended.
    fn join_thread(&mut self, p: &Program, t: u32, u: usize) -> Stepped
        requires { IsStateOf p.now self.old }
        ensures is { (act : bare.Stmt) (at : At p.now self.old t act)
            → Steps p.now self.old self.new result false (joined (state_of p.now self.old) t (frame at.locals at.rest ∷ at.more) (Some u)) }
        ensures kept { IsStateOf p.now self.new }
    {
        let Some(doing) = self.doing(u) else {
            return Stepped::Undefined;
        };
        if !has_ended(doing) {
            return Stepped::NotEnabled;
        }
        self.go_on(p, t, Onward::Past);
        Stepped::Done(Did::Join(u as u32))
    }

    /// Join, as a thread's first statement.
    pub(crate) fn join(&mut self, p: &Program, t: u32, slot: &Place) -> Stepped
        requires { IsStateOf p.now self.old }
        ensures is { (at : At p.now self.old t (bare.Join (place_of slot.now)))
            → Steps p.now self.old self.new result false (does p.now self.old t (bare.Join (place_of slot.now)) at) }
        ensures kept { IsStateOf p.now self.new }
    {
        match self.thread_in(p, slot) {
            Some(u) => self.join_thread(p, t, u),
            None => Stepped::Undefined,
        }
    }
}
