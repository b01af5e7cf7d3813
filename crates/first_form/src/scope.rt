// Statements of threads.
ghost use Rattle.std.specs.Prelude.{◌≡◌, IfOk, List};
ghost use Rattle.c_rules.specs.Names.{mentions};
ghost use Rattle.first_form.specs.FirstForm.{ints_of, mutexes_of, is_scalar_of, is_sum, is_first_act, is_thread_body};
ghost use Rattle.c_tree.specs.Expressions.{expr_of, place_of};
ghost use Rattle.first_form.specs.Shown.{shown, shown_stmt, shown_body};
ghost use Rattle.first_form.specs.Sets.{Knows};
ghost use Rattle.first_form.specs.Bodies.{returns_nothing};

use crate::names::{NameSet, is_known, name_set};
use c_tree::{Act, Expr, Op, Place, Program, Stmt};
use std::alloc::{AllocError, Global};

/// The ints and mutexes of a program, for statements that use them.
#[derive(Drop)]
pub struct Scope<'a> {
    pub program: &'a Program,
    ints: NameSet<'a>,
    mutexes: NameSet<'a>,
    ghost has_ints: { Knows ints (ints_of (shown program.now)) },
    ghost has_mutexes: { Knows mutexes (mutexes_of (shown program.now)) },
}

impl<'a> Scope<'a> {
    /// The scope of a program. The one error is want of memory.
    pub fn new(alloc: Global, program: &'a Program) -> Result<Scope<'a>, AllocError>
        ensures { IfOk result (λ scope. scope.program.now ≡ program.now) }
    {
        Ok(Scope {
            program,
            ints: name_set(alloc, program.ints.as_slice())?,
            mutexes: name_set(alloc, program.mutexes.as_slice())?,
        })
    }

    /// Whether a place is an int.
    pub fn is_int(&self, place: &Place) -> bool
        ensures { result ≡ is_scalar_of (ints_of (shown self.now.program.now)) (place_of place.now) }
    {
        place.index.is_none() && is_known(&self.ints, place.name.as_slice())
    }

    /// Whether a place is a mutex.
    pub fn is_mutex(&self, place: &Place) -> bool
        ensures { result ≡ is_scalar_of (mutexes_of (shown self.now.program.now)) (place_of place.now) }
    {
        place.index.is_none() && is_known(&self.mutexes, place.name.as_slice())
    }

    /// Whether an expression is an int plus a number.
    fn is_sum(&self, e: &Expr) -> bool
        ensures { result ≡ is_sum (shown self.now.program.now) (expr_of e.now) }
    {
        let Expr::Binary { op, left, right } = e else {
            return false;
        };
        match (left.get(), right.get()) {
            (Expr::Name(name), Expr::Number(_)) => *op == Op::Add
                && is_known(&self.ints, name.as_slice()),
            _ => false,
        }
    }

    /// Whether a statement adds to an int, locks a mutex or unlocks one.
    fn is_first_act(&self, s: &Stmt) -> bool
        ensures { result ≡ is_first_act (shown self.now.program.now) (shown_stmt s.now) }
    {
        match &s.act {
            Act::Assign { target, value } => self.is_int(target) && self.is_sum(value),
            Act::Lock { place } => self.is_mutex(place),
            Act::Unlock { place } => self.is_mutex(place),
            _ => false,
        }
    }
    /// Whether a body is acts, and last a return without a value.
    pub fn is_thread_body(&self, body: &[Stmt]) -> bool
        ensures { result ≡ is_thread_body (shown self.now.program.now) (shown_body body.now) }
    {
        match body.split_last() {
            Some((last, acts)) => {
                returns_nothing(last) && acts.iter().all(|s| self.is_first_act(s))
            }
            None => false,
        }
    }

    /// Whether a mutex has this name.
    pub fn is_mutex_name(&self, name: &[u8]) -> bool
        ensures { result ≡ mentions (mutexes_of (shown self.now.program.now)) name.now }
    {
        is_known(&self.mutexes, name)
    }
}

fn returns_nothing(s: &Stmt) -> bool
    ensures { result ≡ returns_nothing (shown_stmt s.now) }
{
    matches!(&s.act, Act::Return { value: None })
}
