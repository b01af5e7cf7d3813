// Calls and prints.
ghost use Rattle.std.specs.Prelude.{◌≡◌, List, Some, ◌∷◌, IfOk, IsErr, IsOk, option_map, true};
ghost use Rattle.c_tree.specs.Bare as bare;
ghost use Rattle.c_tree.specs.Expressions.{exprs_of, Place};
ghost use Rattle.c_meaning.specs.Numbers.{HaveSmallNumbers};
ghost use Rattle.c_meaning.specs.Places.{evaluated_all};
ghost use Rattle.c_meaning.specs.Shown.{shown};
ghost use Rattle.c_meaning.specs.Printing.{formatted};
ghost use Rattle.std.specs.declared.option.Option as option;
ghost use Rattle.c_meaning.specs.State as run;
ghost use Rattle.c_tree.specs.declared.program.Program as tree;
ghost use Rattle.state_parts.specs.Threads.{frame_in};
ghost use Rattle.state_parts.specs.Valid.{IsFrameIn};
ghost use Rattle.c_steps.specs.Running.{Runs};
ghost use Rattle.c_steps.specs.Answers.{Steps};
ghost use Rattle.c_steps.specs.Model.{state_of};
ghost use Rattle.c_steps.specs.Kept.{IsStateOf};
ghost use Rattle.c_steps.specs.Standing.{At, does};

use crate::state::{State, Stepped};
use c_frames::Frame;
use c_meaning::{Did, put_format};
use c_tree::{Exprs, Name, Program};
use state_parts::arguments::more_values;
use state_parts::frames::Onward;
use state_parts::new_frames::make_frame;
use std::alloc::{AllocError, Global};

impl State {
    /// The values of expressions, and none where one of them is undefined. The one error is want of memory.
    fn evaluated_all(
        &self,
        alloc: Global,
        p: &Program,
        t: u32,
        es: &Exprs,
    ) -> Result<Option<Vec<i32>>, AllocError>
        requires state { IsStateOf p.now self.now }
        requires small { HaveSmallNumbers (exprs_of es.now) }
        ensures { IfOk result (λ values. (act : bare.Stmt) (at : At p.now self.now t act)
            → option_map (λ v. v.items) values ≡ evaluated_all (shown p.now) (state_of p.now self.now) at.locals (exprs_of es.now)) }
    {
        let Some(view) = self.view(p, t, 0) else {
            return Ok(None);
        };
        more_values(&view, es.as_slice(), Vec::new(alloc))
    }

    /// A new frame for a thread. The one error is want of memory, and then nothing changes.
    fn push(&mut self, t: u32, x: Frame) -> Result<(), AllocError>
        ensures pushes { IsOk result → (p : tree.Program) (f : run.Frame) (more : List run.Frame) → Runs p self.old t f more
            → state_of p self.new ≡ run.goes_on (state_of p self.old) t (frame_in p self.old.tables x ∷ f ∷ more) }
        ensures same { IsErr result → (p : tree.Program) → state_of p self.new ≡ state_of p self.old }
        ensures kept { (p : tree.Program) → IsStateOf p self.old → IsFrameIn p self.old.tables x → IsStateOf p self.new }
    {
        if let Some(thread) = self.threads.get_mut(t as usize) {
            thread.frames.push(x)?;
        }
        Ok(())
    }

    /// A call: a new frame with the arguments.
    pub(crate) fn call(&mut self, p: &Program, t: u32, function: &Name, args: &Exprs) -> Stepped
        requires state { IsStateOf p.now self.old }
        requires small { HaveSmallNumbers (exprs_of args.now) }
        ensures is { (target : option.Option Place) (at : At p.now self.old t (bare.Call target function.now (exprs_of args.now)))
            → Steps p.now self.old self.new result true (does p.now self.old t (bare.Call target function.now (exprs_of args.now)) at) }
        ensures kept { IsStateOf p.now self.new }
    {
        let alloc = *self.threads.allocator();
        let Ok(values) = self.evaluated_all(alloc, p, t, args) else {
            return Stepped::Memory;
        };
        let Some(values) = values else {
            return Stepped::Undefined;
        };
        let Ok(made) = make_frame(
            alloc,
            p,
            &self.tables,
            function.as_slice(),
            values.as_slice(),
        ) else {
            return Stepped::Memory;
        };
        let Some(x) = made else {
            return Stepped::Undefined;
        };
        match self.push(t, x) {
            Ok(()) => Stepped::Done(Did::Step),
            Err(_) => Stepped::Memory,
        }
    }

    /// A print: appends the bytes of the format.
    pub(crate) fn print(&mut self, p: &Program, t: u32, format: &Name, args: &Exprs) -> Stepped
        requires state { IsStateOf p.now self.old }
        requires small { HaveSmallNumbers (exprs_of args.now) }
        ensures is { (at : At p.now self.old t (bare.Print format.now (exprs_of args.now)))
            → Steps p.now self.old self.new result true (does p.now self.old t (bare.Print format.now (exprs_of args.now)) at) }
        ensures kept { IsStateOf p.now self.new }
    {
        let alloc = *self.threads.allocator();
        let Ok(values) = self.evaluated_all(alloc, p, t, args) else {
            return Stepped::Memory;
        };
        let Some(values) = values else {
            return Stepped::Undefined;
        };
        let Ok(text) = formatted(alloc, format, values.as_slice()) else {
            return Stepped::Memory;
        };
        let Ok(()) = self.output.extend_from_slice(text.as_slice()) else {
            return Stepped::Memory;
        };
        self.go_on(p, t, Onward::Past);
        Stepped::Done(Did::Print)
    }
}

/// The bytes of a format with its arguments. The one error is want of memory.
fn formatted(alloc: Global, format: &Name, values: &[i32]) -> Result<Vec<u8>, AllocError>
    ensures { IfOk result (λ text. text.items ≡ formatted format.now values.now) }
{
    let mut text = Vec::new(alloc);
    put_format(&mut text, alloc, format.as_slice(), values)?;
    Ok(text)
}
