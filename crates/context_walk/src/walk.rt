// The walk through the contexts.
ghost use Rattle.std.specs.Prelude.{◌≡◌, ◌<◌, ◌∷◌, ℕ, List, Option, not, All, IfErr, IfSome, OnOk, Some, option_and_then};
ghost use Rattle.c_tree.specs.Expressions.{Expr as AnyExpr, exprs_of};
ghost use Rattle.c_meaning.specs.Numbers.{HaveSmallNumbers};
ghost use Rattle.contexts.specs.Constants.{among, known_declared, with_value};
ghost use Rattle.contexts.specs.Resolved.{constants_of};
ghost use Rattle.contexts.specs.Walk.{Walked};
ghost use Rattle.context_items.specs.Flat.{marked};
ghost use Rattle.context_items.specs.Items as item;
ghost use Rattle.context_items.specs.Marks as mark;
ghost use Rattle.context_locals.specs.Known.{known_of, outers_of, place_of, is_in, IsKept};
ghost use Rattle.context_locals.specs.Operands.{mutex_value, operand_value, Fits, IsOperandIfAny, IsSmallIndex};
ghost use Rattle.context_walk.specs.Found.{contexts_of, Finds, IsRefusal};
ghost use Rattle.context_walk.specs.Places.{writes_at};
ghost use Rattle.context_walk.specs.Prepared.{count_in, program_in, ArePrepared};
ghost use Rattle.context_walk.specs.Steps.{shown_step, shown_steps, IsStep, NamesFit};
ghost use Rattle.context_walk.specs.Walking.{along, Continues, FindsEntered, IsEntryRefused};

use crate::functions::Functions;
use crate::marks::{ContextError, Contexts};
use crate::steps::Step;
use c_tree::Expr;
use context_locals::{Known, MutexPlace, Operand};
use std::alloc::{AllocError, Global};

/// Marks the mutex that a statement at this line names. The errors are that it names none in this
/// context, and want of memory.
fn lock<'p>(
    found: &mut Contexts,
    known: &Known<'_, 'p>,
    line: u32,
    place: &MutexPlace<'p>,
) -> Result<(), ContextError>
    requires small { IsSmallIndex place.now.index }
    requires fits { IfSome place.now.mutexes Fits }
    ensures found { OnOk result ((rest : Walked (List mark.Mark)) → Continues (marked line (mutex_value known.now.names.now known.now.values.items place.now) rest) rest found.old found.new) }
    ensures contexts { OnOk result (contexts_of found.new ≡ contexts_of found.old) }
    ensures refused { IfErr result (λ e. (rest : Walked (List mark.Mark)) → IsRefusal e (marked line (mutex_value known.now.names.now known.now.values.items place.now) rest)) }
{
    match known.mutex(place) {
        Some(mutex) => {
            found.mark(mutex)?;
            Ok(())
        }
        None => Err(ContextError::LockNotResolved { line }),
    }
}

/// The value that a local is declared with, where that is constant.
fn first_value<'p>(known: &Known<'_, 'p>, operand: &Option<Operand<'p>>) -> Option<i32>
    requires { IsSmallIndex operand.now }
    ensures { result ≡ option_and_then (operand_value known.now.names.now known.now.values.items) operand.now }
{
    match operand {
        Some(operand) => known.value(operand),
        None => None,
    }
}

/// Declares a local, of a number if it can be constant, with its first value, if it has one. The
/// one error is want of memory.
fn declare<'p>(
    known: &mut Known<'_, 'p>,
    local: Option<usize>,
    operand: &Option<Operand<'p>>,
) -> Result<(), AllocError>
    requires small { IsSmallIndex operand.now }
    requires kept { IsKept known.old }
    ensures known { OnOk result ((writes : List (List ℕ)) (name : List ℕ) (value : Option AnyExpr) → place_of known.old.names.now name ≡ local → IsOperandIfAny known.old.names.now value operand.now
        → is_in known.old.names.now name ≡ not (among writes name) → known_of known.new ≡ with_value (known_of known.old) name (known_declared writes (known_of known.old) name value)) }
    ensures outer { OnOk result (outers_of known.new ≡ outers_of known.old) }
    ensures names { OnOk result (known.new.names ≡ known.old.names) }
    ensures kept { OnOk result (IsKept known.new) }
{
    let value = first_value(known, operand);
    known.declare(local, value)
}

impl<'p> Functions<'p> {
    /// Calls the function at a place above that of the caller, where this is known. The errors are
    /// those of entering it.
    #[cycle(walk)]
    fn call(
        &self,
        alloc: Global,
        found: &mut Contexts,
        k: usize,
        known: &Known<'_, 'p>,
        callee: usize,
        args: &[Expr],
    ) -> Result<(), ContextError>
        requires prepared { ArePrepared self.now }
        requires within { k < count_in self.now }
        requires above { callee < k }
        requires small { HaveSmallNumbers (exprs_of args.now) }
        ensures found { OnOk result (FindsEntered (program_in self.now) callee (constants_of (known_of known.now) (exprs_of args.now)) found.old found.new) }
        ensures refused { IfErr result (IsEntryRefused (program_in self.now) callee (constants_of (known_of known.now) (exprs_of args.now)) found.old) }
    {
        let values = known.constants(alloc, args)?;
        self.enter(alloc, found, callee, values.as_slice())
    }

    /// Walks one step of the function at a place, where this is known. The errors are a lock that
    /// isn't resolved, too many contexts, and want of memory.
    #[cycle(walk)]
    fn walk_step(
        &self,
        alloc: Global,
        found: &mut Contexts,
        k: usize,
        known: &mut Known<'_, 'p>,
        step: &Step<'p>,
    ) -> Result<(), ContextError>
        requires prepared { ArePrepared self.now }
        requires within { k < count_in self.now }
        requires step { IsStep (program_in self.now) k known.old.names.now step.now }
        requires declares { NamesFit (writes_at (program_in self.now) k) known.old.names.now (shown_step step.now) }
        requires kept { IsKept known.old }
        ensures found { OnOk result ((more : List item.Item) → Continues (along (program_in self.now) k known.old (shown_step step.now ∷ more) found.old) (along (program_in self.now) k known.new more found.new) found.old found.new) }
        ensures names { OnOk result (known.new.names ≡ known.old.names) }
        ensures kept { OnOk result (IsKept known.new) }
        ensures refused { IfErr result (λ e. (more : List item.Item) → IsRefusal e (along (program_in self.now) k known.old (shown_step step.now ∷ more) found.old)) }
    {
        match step {
            Step::Opens => {
                known.open()?;
                Ok(())
            }
            Step::Closes => {
                known.close();
                Ok(())
            }
            Step::Declares { local, operand, .. } => {
                declare(known, *local, operand)?;
                Ok(())
            }
            Step::Locks { line, mutex, .. } => lock(found, known, *line, mutex),
            Step::Holds { resource, .. } => {
                found.mark(*resource)?;
                Ok(())
            }
            Step::Calls { args, callee, .. } => match callee {
                Some(callee) => self.call(alloc, found, k, known, *callee, args),
                None => Ok(()),
            },
        }
    }

    /// Walks steps of the function at a place, from where this is known. The errors are a lock that
    /// isn't resolved, too many contexts, and want of memory.
    #[cycle(walk)]
    fn walk_steps(
        &self,
        alloc: Global,
        found: &mut Contexts,
        k: usize,
        known: &mut Known<'_, 'p>,
        steps: &[Step<'p>],
    ) -> Result<(), ContextError>
        requires prepared { ArePrepared self.now }
        requires within { k < count_in self.now }
        requires steps { All (IsStep (program_in self.now) k known.old.names.now) steps.now }
        requires declares { All (NamesFit (writes_at (program_in self.now) k) known.old.names.now) (shown_steps steps.now) }
        requires kept { IsKept known.old }
        ensures found { OnOk result (Finds (along (program_in self.now) k known.old (shown_steps steps.now) found.old) found.old found.new) }
        ensures refused { IfErr result (λ e. IsRefusal e (along (program_in self.now) k known.old (shown_steps steps.now) found.old)) }
    {
        for step in steps {
            self.walk_step(alloc, found, k, known, step)?;
        }
        Ok(())
    }

    /// Enters the function at a place with these arguments, as one context more. The errors are a
    /// lock that isn't resolved, too many contexts, and want of memory.
    #[cycle(walk)]
    pub(crate) fn enter(
        &self,
        alloc: Global,
        found: &mut Contexts,
        k: usize,
        args: &[Option<i32>],
    ) -> Result<(), ContextError>
        requires prepared { ArePrepared self.now }
        requires within { k < count_in self.now }
        ensures found { OnOk result (FindsEntered (program_in self.now) k args.now found.old found.new) }
        ensures refused { IfErr result (IsEntryRefused (program_in self.now) k args.now found.old) }
    {
        if found.is_full() {
            return Err(ContextError::TooManyContexts);
        }
        found.begin(k)?;
        let here = &self.functions[k];
        let mut known = Known::new(alloc, &here.names, here.function.params.as_slice(), args)?;
        self.walk_steps(alloc, found, k, &mut known, here.steps.as_slice())
    }
}
