// What is known of the locals in a context.
ghost use Rattle.std.specs.Prelude.{◌≡◌, ◌∷◌, ℕ, List, [], None, Some, IfOk, OnOk, IfSome, is_some, if◌then◌else◌, slice_set};
ghost use Rattle.c_tree.specs.Expressions.{expr_of, exprs_of};
ghost use Rattle.c_meaning.specs.Numbers.{HasSmallNumbers, HaveSmallNumbers};
ghost use Rattle.contexts.specs.Constants.{Constants, constant_in, constant_values, is_built, none_known, with_value};
ghost use Rattle.contexts.specs.Resolved.{constants_of, passed};
ghost use Rattle.context_locals.specs.Known.{known_of, outers_of, value_at, place_of, AreConstantNames, AreWithin, IsKept};
ghost use Rattle.context_locals.specs.Operands.{operand_value, mutex_value, IsSmallOperand, IsSmallIndex, Fits};

use crate::mutexes::MutexPlace;
use crate::names::ConstantNames;
use crate::operands::Operand;
use c_meaning::{Scope, value};
use c_tree::{Expr, Name};
use std::alloc::{AllocError, Global};

/// A change of what is known.
#[derive(Clone, Copy, Debug)]
pub enum Change {
    /// A block began.
    Opens,
    /// The local of this number was given a value, and had this one before.
    Sets(usize, Option<i32>),
}

/// What is known of the locals at a place in the text of a function, in a context.
#[derive(Drop)]
pub struct Known<'a, 'p> {
    names: &'a ConstantNames<'p>,
    values: Vec<Option<i32>>,
    changes: Vec<Change>,
}

impl<'a, 'p> Scope for Known<'a, 'p> {
    ghost values = { λ k. constant_values (known_of k) };

    fn scalar(&self, name: &[u8]) -> Option<i32> {
        self.named(name)
    }

    fn element(&self, _name: &[u8], _index: i32) -> Option<i32> {
        None
    }
}

/// Gives a number a value.
fn set(values: &mut Vec<Option<i32>>, k: usize, value: Option<i32>)
    ensures { values.new.items ≡ slice_set values.old.items k value }
{
    if k < values.len() {
        values[k] = value;
    }
}

impl<'a, 'p> Known<'a, 'p> {
    /// What is known where nothing is. The one error is want of memory.
    fn nothing(alloc: Global, names: &'a ConstantNames<'p>) -> Result<Known<'a, 'p>, AllocError>
        ensures known { IfOk result (λ k. known_of k ≡ none_known) }
        ensures changes { IfOk result (λ k. k.changes.items ≡ []) }
        ensures names { IfOk result (λ k. k.names.now ≡ names.now) }
        ensures kept { IfOk result IsKept }
    {
        Ok(Known {
            names,
            values: vec![in alloc; None; names.len()]?,
            changes: Vec::new(alloc),
        })
    }

    /// Makes a parameter's argument known, if it is constant.
    fn pass(&mut self, name: &Name, arg: Option<i32>)
        requires { IsKept self.old }
        ensures known { known_of self.new ≡ with_value (known_of self.old) name.now (if is_some (place_of self.old.names.now name.now) then arg else None) }
        ensures names { self.new.names ≡ self.old.names }
        ensures changes { self.new.changes ≡ self.old.changes }
        ensures kept { IsKept self.new }
    {
        if let Some(k) = self.names.place(name.as_slice()) {
            set(&mut self.values, k, arg);
        }
    }

    /// What is known where a function with these parameters begins with these arguments. The one
    /// error is want of memory.
    pub fn new(
        alloc: Global,
        names: &'a ConstantNames<'p>,
        params: &[Name],
        args: &[Option<i32>],
    ) -> Result<Known<'a, 'p>, AllocError>
        ensures known { IfOk result (λ k. (writes locals : List (List ℕ)) → AreConstantNames writes locals names.now → AreWithin params.now locals → known_of k ≡ passed writes params.now args.now) }
        ensures outer { IfOk result (λ k. outers_of k ≡ []) }
        ensures names { IfOk result (λ k. k.names.now ≡ names.now) }
        ensures kept { IfOk result IsKept }
    {
        let mut known = Known::nothing(alloc, names)?;
        let count = params.len().min(args.len());
        for k in (0..count).rev() {
            known.pass(&params[k], args[k]);
        }
        Ok(known)
    }

    /// The value of the local of a number.
    fn local(&self, k: usize) -> Option<i32>
        ensures { result ≡ value_at self.now.values.items (Some k) }
    {
        *self.values.get(k)?
    }

    /// The value of the local of a name.
    fn named(&self, name: &[u8]) -> Option<i32>
        ensures { result ≡ known_of self.now name.now }
    {
        self.local(self.names.place(name)?)
    }

    /// Whether an expression is one of numbers and constant locals alone.
    fn is_built(&self, e: &Expr) -> bool
        ensures { result ≡ is_built (known_of self.now) (expr_of e.now) }
    {
        match e {
            Expr::Number(_) => true,
            Expr::Name(name) => self.named(name.as_slice()).is_some(),
            Expr::Element { .. } => false,
            Expr::Arg(name) => self.named(name.as_slice()).is_some(),
            Expr::Not(a) => self.is_built(a.get()),
            Expr::Minus(a) => self.is_built(a.get()),
            Expr::Binary { left, right, .. } => {
                self.is_built(left.get()) && self.is_built(right.get())
            }
        }
    }

    /// The value of an expression, where it is constant.
    pub fn constant(&self, e: &Expr) -> Option<i32>
        requires { HasSmallNumbers (expr_of e.now) }
        ensures { result ≡ constant_in (known_of self.now) (expr_of e.now) }
    {
        if self.is_built(e) {
            value(self, e)
        } else {
            None
        }
    }

    /// The values of expressions, where they are constant. The one error is want of memory.
    pub fn constants(&self, alloc: Global, es: &[Expr]) -> Result<Vec<Option<i32>>, AllocError>
        requires { HaveSmallNumbers (exprs_of es.now) }
        ensures { IfOk result (λ zs. zs.items ≡ constants_of (known_of self.now) (exprs_of es.now)) }
    {
        let mut all = Vec::with_capacity(alloc, es.len())?;
        for e in es {
            all.push(self.constant(e))?;
        }
        Ok(all)
    }

    /// The value of an expression of the function, where it is constant.
    pub fn value(&self, operand: &Operand<'p>) -> Option<i32>
        requires { IsSmallOperand operand.now }
        ensures { result ≡ operand_value self.now.names.now self.now.values.items operand.now }
    {
        match operand {
            Operand::Fixed(z) => *z,
            Operand::Local(k) => self.local(*k),
            Operand::Other(e) => self.constant(e),
        }
    }

    /// The mutex at a place of the function, where its index is constant and within range.
    pub fn mutex(&self, place: &MutexPlace<'p>) -> Option<u8>
        requires small { IsSmallIndex place.now.index }
        requires fits { IfSome place.now.mutexes Fits }
        ensures { result ≡ mutex_value self.now.names.now self.now.values.items place.now }
    {
        let index = match &place.index {
            None => None,
            Some(operand) => Some(self.value(operand)?),
        };
        place.mutexes?.member(index)
    }

    /// Begins a block. The one error is want of memory.
    pub fn open(&mut self) -> Result<(), AllocError>
        requires { IsKept self.old }
        ensures known { OnOk result (known_of self.new ≡ known_of self.old) }
        ensures outer { OnOk result (outers_of self.new ≡ known_of self.old ∷ outers_of self.old) }
        ensures names { OnOk result (self.new.names ≡ self.old.names) }
        ensures kept { OnOk result (IsKept self.new) }
    {
        self.changes.push(Change::Opens)?;
        Ok(())
    }

    /// Declares a local, of a number if it can be constant, with the value that it begins with, if
    /// that is known. The one error is want of memory.
    pub fn declare(&mut self, local: Option<usize>, value: Option<i32>) -> Result<(), AllocError>
        requires { IsKept self.old }
        ensures known { OnOk result ((name : List ℕ) → place_of self.old.names.now name ≡ local → known_of self.new ≡ with_value (known_of self.old) name (if is_some local then value else None)) }
        ensures outer { OnOk result (outers_of self.new ≡ outers_of self.old) }
        ensures names { OnOk result (self.new.names ≡ self.old.names) }
        ensures kept { OnOk result (IsKept self.new) }
    {
        let Some(k) = local else {
            return Ok(());
        };
        if !self.changes.is_empty() {
            let before = self.local(k);
            self.changes.push(Change::Sets(k, before))?;
        }
        set(&mut self.values, k, value);
        Ok(())
    }

    /// Ends the last block that began, where one did: what was known around it is known again.
    pub fn close(&mut self)
        requires { IsKept self.old }
        ensures none { outers_of self.old ≡ [] → (known_of self.new ≡ known_of self.old) × (outers_of self.new ≡ []) }
        ensures last { (before : Constants) (outer : List Constants) → outers_of self.old ≡ before ∷ outer → (known_of self.new ≡ before) × (outers_of self.new ≡ outer) }
        ensures names { self.new.names ≡ self.old.names }
        ensures kept { IsKept self.new }
    {
        while let Some(change) = self.changes.pop() {
            match change {
                Change::Opens => return,
                Change::Sets(k, before) => set(&mut self.values, k, before),
            }
        }
    }
}
