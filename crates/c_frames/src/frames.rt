// Frames of calls.
ghost use Rattle.std.specs.Prelude.{◌≡◌, IfSome, IfOk, IsNone, true};
ghost use Rattle.std.specs.FinMap as finite;
ghost use Rattle.c_tree.specs.Bare as bare;
ghost use Rattle.c_tree.specs.Bare.{Stmts, Nil, Cons};
ghost use Rattle.c_tree.specs.Bare.{before};
ghost use Rattle.c_meaning.specs.Calls.{passed};
ghost use Rattle.c_meaning.specs.Shown.{shown_stmt, shown_body};
ghost use Rattle.c_meaning.specs.State.{frame};
ghost use Rattle.c_frames.specs.Frames.{todo_of, locals_in, frame_of, picked, IsPlaced, HasValues, IsFrame, IsNext};
ghost use Rattle.c_frames.specs.LocalValues.{changed};
ghost use Rattle.c_frames.specs.Names.{shown_function, NamesOf, IsAmong};
ghost use Rattle.c_frames.specs.Positions.{first_of, part_of, after_part};

use crate::locals::{local_value, no_values, pass_args, set_local};
use crate::names::LocalNames;
use crate::positions::{Part, Standing};
use c_tree::{Function, Stmt};
use smallvec::SmallVec;
use std::alloc::{AllocError, Global};

/// A list of a statement that its test picks, or what a trylock finds.
#[derive(Clone, Copy, Debug, PartialEq, Eq)]
pub enum Arm {
    /// What an `if` does where its test isn't 0, or a trylock where it takes the mutex.
    Then,
    /// What an `if` does where its test is 0, or a trylock where the mutex is busy.
    Else,
    /// The body of a loop.
    Body,
}

/// The part of a statement that an arm is.
fn part(arm: Arm) -> Part
    ensures { (s : bare.Stmt) (rest : Stmts) → before (part_of result s) (after_part result s rest) ≡ picked arm s rest }
{
    match arm {
        Arm::Then => Part::Then,
        Arm::Else => Part::Else,
        Arm::Body => Part::Body,
    }
}

/// A call that has not returned: where it stands in the statements of its function, and the values of its locals.
///
/// Its methods take the function, or the function's names, that it was made with.
#[derive(Debug, Drop)]
pub struct Frame {
    function: usize,
    at: Standing,
    values: Vec<Option<i32>>,
}

impl Frame {
    /// A call of the function of a number, of which nothing is done yet. Its arguments are the values of its parameters,
    /// in order; other locals have no value. The one error is want of memory.
    pub fn new(
        alloc: Global,
        names: &LocalNames,
        function: usize,
        f: &Function,
        args: &[i32],
    ) -> Result<Frame, AllocError>
        requires { NamesOf (shown_function f.now) names.now }
        ensures begins { IfOk result (λ new. frame_of (shown_function f.now) names.now new ≡ frame (passed f.now.params args.now) (shown_body f.now.body)) }
        ensures valid { IfOk result (IsFrame (shown_function f.now) names.now) }
        ensures function { IfOk result (λ new. new.function ≡ function) }
    {
        let mut values = no_values(alloc, names.len())?;
        pass_args(names, values.as_mut_slice(), f.params.as_slice(), args);
        let at = Standing {
            entered: SmallVec::with_capacity(alloc, names.height())?,
            index: 0,
            begun: false,
        };
        Ok(Frame {
            function,
            at,
            values,
        })
    }

    /// The number of its function.
    pub fn function(&self) -> usize
        ensures { result ≡ self.now.function }
    {
        self.function
    }

    /// Whether the statement that comes next is a `for` whose first part is done.
    pub fn begun(&self) -> bool
        ensures { result ≡ self.now.at.begun }
    {
        self.at.begun
    }

    /// The statement that comes next. Where `begun` is set and it is a `for`, its loop comes next.
    pub fn next<'a>(&self, f: &'a Function) -> Option<&'a Stmt>
        requires { IsPlaced (shown_function f.now) self.now }
        ensures some { IfSome result (λ s. IsNext (shown_function f.now) self.now (shown_stmt s.now)) }
        ensures none { IsNone result → todo_of (shown_function f.now) self.now ≡ Nil }
    {
        self.at.next(f.body.as_slice())
    }

    /// Goes past the statement that comes next, where there is one.
    pub fn pass(&mut self, f: &Function)
        requires { IsPlaced (shown_function f.now) self.old }
        ensures passes { (s : bare.Stmt) (rest : Stmts) → todo_of (shown_function f.now) self.old ≡ Cons s rest → todo_of (shown_function f.now) self.new ≡ rest }
        ensures placed { IsPlaced (shown_function f.now) self.new }
        ensures values { self.new.values ≡ self.old.values }
        ensures function { self.new.function ≡ self.old.function }
    {
        let body = f.body.as_slice();
        if self.at.next(body).is_some() {
            self.at.pass();
            self.at.settle(body);
        }
    }

    /// Goes into the list that a test picks of the statement that comes next, where there is one.
    pub fn enter(&mut self, f: &Function, arm: Arm)
        requires { IsPlaced (shown_function f.now) self.old }
        ensures enters { (s : bare.Stmt) (rest : Stmts) → todo_of (shown_function f.now) self.old ≡ Cons s rest
            → todo_of (shown_function f.now) self.new ≡ picked arm s rest }
        ensures placed { IsPlaced (shown_function f.now) self.new }
        ensures values { self.new.values ≡ self.old.values }
        ensures function { self.new.function ≡ self.old.function }
    {
        let body = f.body.as_slice();
        if self.at.next(body).is_some() {
            self.at.enter(part(arm));
            self.at.settle(body);
        }
    }

    /// Says that the first part of the `for` that comes next is done.
    pub fn begin(&mut self, f: &Function)
        requires { IsPlaced (shown_function f.now) self.old }
        ensures begins { (s : bare.Stmt) (rest : Stmts) → todo_of (shown_function f.now) self.old ≡ Cons s rest
            → todo_of (shown_function f.now) self.new ≡ Cons (first_of true s) rest }
        ensures placed { IsPlaced (shown_function f.now) self.new }
        ensures values { self.new.values ≡ self.old.values }
        ensures function { self.new.function ≡ self.old.function }
    {
        self.at.begin();
    }

    /// The value of a local, where it has one.
    pub fn local(&self, names: &LocalNames, name: &[u8]) -> Option<i32>
        ensures { result ≡ finite.get (locals_in names.now self.now) name.now }
    {
        local_value(names, self.values.as_slice(), name)
    }

    /// Gives a local a value, or takes its value away. It is one of the function's names.
    pub fn set(&mut self, names: &LocalNames, name: &[u8], value: Option<i32>)
        requires among { IsAmong names.now name.now }
        requires values { HasValues names.now self.old }
        ensures sets { locals_in names.now self.new ≡ changed (locals_in names.now self.old) name.now value }
        ensures values { HasValues names.now self.new }
        ensures place { self.new.at ≡ self.old.at }
        ensures function { self.new.function ≡ self.old.function }
    {
        set_local(names, self.values.as_mut_slice(), name, value);
    }
}
