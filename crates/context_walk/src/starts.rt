// How the threads of a program begin.
ghost use Rattle.std.specs.Prelude.{◌≡◌, true, IfErr, IfOk, OnOk, Some, option_map};
ghost use Rattle.c_tree.specs.Bare as bare;
ghost use Rattle.c_tree.specs.Everywhere.{Everywhere};
ghost use Rattle.c_tree.specs.Expressions.{expr_of};
ghost use Rattle.c_tree.specs.Lined.{bare_program, program_of};
ghost use Rattle.c_tree.specs.Numbering.{creations_of, main_body};
ghost use Rattle.c_tree.specs.Values as values;
ghost use Rattle.c_meaning.specs.Numbers.{HasSmallNumbers};
ghost use Rattle.c_meaning.specs.Shown.{shown_body, shown_stmt};
ghost use Rattle.c_canonical.specs.ShapedPrograms.{ShapedProgram};
ghost use Rattle.contexts.specs.Outlines.{outlines, starts};
ghost use Rattle.rule_facts.specs.FromLast.{from_last, named_in, StartsNamed};
ghost use Rattle.rule_facts.specs.Regular.{Regular};
ghost use Rattle.state_parts.specs.Small.{AreSmall, IsSmall};
ghost use Rattle.context_walk.specs.Found.{contexts_of, AreContexts, Finds, IsRefusal};
ghost use Rattle.context_walk.specs.Prepared.{program_in, ArePrepared, IsFormed};
ghost use Rattle.context_walk.specs.Starts.{all_above, begins, begun_by, created};
ghost use Rattle.context_walk.specs.Walking.{Continues};

use crate::functions::Functions;
use crate::marks::{ContextError, Contexts};
use c_meaning::{Scope, value};
use c_tree::{Act, Expr, Function, Program, Stmt};
use std::alloc::Global;

/// No name stands for anything, as in constants.
struct NoNames;

impl Scope for NoNames {
    ghost values = { λ scope. values.no_values };

    fn scalar(&self, _name: &[u8]) -> Option<i32> {
        None
    }

    fn element(&self, _name: &[u8], _index: i32) -> Option<i32> {
        None
    }
}

/// The value of an expression of numbers.
fn constant(e: &Expr) -> Option<i32>
    requires { HasSmallNumbers (expr_of e.now) }
    ensures { result ≡ values.constant (expr_of e.now) }
{
    value(&NoNames, e)
}

/// What a create statement begins: its start function and the argument.
fn created<'p>(s: &'p Stmt) -> Option<(&'p [u8], &'p Expr)>
    ensures { option_map (λ c. (c.0.now, expr_of c.1.now)) result ≡ created (shown_stmt s.now) }
{
    match &s.act {
        Act::Create { function, arg, .. } => Some((function.as_slice(), arg)),
        _ => None,
    }
}

impl<'p> Functions<'p> {
    /// Begins a thread with the last function of a name. The errors are a lock that isn't resolved,
    /// too many contexts, and want of memory.
    fn begin(
        &self,
        alloc: Global,
        found: &mut Contexts,
        name: &[u8],
        args: &[Option<i32>],
    ) -> Result<(), ContextError>
        requires prepared { ArePrepared self.now }
        requires named { named_in (from_last (program_in self.now)) name.now ≡ true }
        ensures found { OnOk result (Finds ((all_above (program_in self.now)).enter name.now args.now (contexts_of found.old)) found.old found.new) }
        ensures refused { IfErr result (λ e. IsRefusal e ((all_above (program_in self.now)).enter name.now args.now (contexts_of found.old))) }
    {
        match self.place(name) {
            Some(k) => self.enter(alloc, found, k, args),
            None => unreachable!(),
        }
    }

    /// Begins the thread that a statement creates, if it is a create statement. The errors are those
    /// of a thread.
    fn begin_created(
        &self,
        alloc: Global,
        found: &mut Contexts,
        s: &Stmt,
    ) -> Result<(), ContextError>
        requires prepared { ArePrepared self.now }
        requires named { StartsNamed (named_in (from_last (program_in self.now))) (creations_of (bare.Cons (shown_stmt s.now) bare.Nil)) }
        requires small { IsSmall (shown_stmt s.now) }
        ensures found { OnOk result ((more : bare.Stmts) → Continues (begins (program_in self.now) (begun_by (bare.Cons (shown_stmt s.now) more)) found.old) (begins (program_in self.now) (begun_by more) found.new) found.old found.new) }
        ensures refused { IfErr result (λ e. (more : bare.Stmts) → IsRefusal e (begins (program_in self.now) (begun_by (bare.Cons (shown_stmt s.now) more)) found.old)) }
    {
        match created(s) {
            Some((name, arg)) => self.begin(alloc, found, name, &[constant(arg)]),
            None => Ok(()),
        }
    }

    /// Begins the threads that the create statements of a list create. The errors are those of a
    /// thread.
    fn begin_all_created(
        &self,
        alloc: Global,
        found: &mut Contexts,
        body: &[Stmt],
    ) -> Result<(), ContextError>
        requires prepared { ArePrepared self.now }
        requires named { StartsNamed (named_in (from_last (program_in self.now))) (creations_of (shown_body body.now)) }
        requires small { Everywhere IsSmall (shown_body body.now) }
        ensures found { OnOk result (Finds (begins (program_in self.now) (begun_by (shown_body body.now)) found.old) found.old found.new) }
        ensures refused { IfErr result (λ e. IsRefusal e (begins (program_in self.now) (begun_by (shown_body body.now)) found.old)) }
    {
        for s in body {
            self.begin_created(alloc, found, s)?;
        }
        Ok(())
    }

    /// The function that is named main.
    pub fn main(&self) -> &'p Function
        requires prepared { ArePrepared self.now }
        requires regular { Regular (program_in self.now) }
        requires small { AreSmall self.now.program.now }
        ensures body { shown_body result.now.body ≡ main_body (bare_program (program_in self.now)) }
        ensures small { Everywhere IsSmall (shown_body result.now.body) }
    {
        match self.place(b"main") {
            Some(k) => self.functions[k].function,
            None => unreachable!(),
        }
    }

    /// Begins all threads, main first. The errors are those of a thread.
    fn begin_all(&self, alloc: Global, found: &mut Contexts) -> Result<(), ContextError>
        requires prepared { ArePrepared self.now }
        requires regular { Regular (program_in self.now) }
        requires small { AreSmall self.now.program.now }
        ensures found { OnOk result (Finds (begins (program_in self.now) (starts (program_in self.now)) found.old) found.old found.new) }
        ensures refused { IfErr result (λ e. IsRefusal e (begins (program_in self.now) (starts (program_in self.now)) found.old)) }
    {
        self.begin(alloc, found, b"main", &[])?;
        self.begin_all_created(alloc, found, self.main().body.as_slice())
    }
}

/// The contexts of a well-formed program, with the resource of each of their statements. The errors
/// are a lock whose mutex isn't constant in a context or is out of range, at its line; more than 256
/// contexts; and want of memory.
pub fn resolve(alloc: Global, p: &Program) -> Result<Contexts, ContextError>
    requires formed { IsFormed p.now }
    requires shaped { ShapedProgram (bare_program (program_of p.now)) }
    requires small { AreSmall p.now }
    ensures found { IfOk result (λ c. AreContexts (outlines (program_of p.now)) c) }
    ensures refused { IfErr result (λ e. IsRefusal e (outlines (program_of p.now))) }
{
    let functions = Functions::new(alloc, p)?;
    let mut found = Contexts::new(alloc);
    functions.begin_all(alloc, &mut found)?;
    Ok(found)
}
