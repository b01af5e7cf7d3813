// Copies, each equal to what it copies, lines included.
ghost use Rattle.std.specs.Prelude.{◌≡◌, IfOk};

use crate::expr::{Expr, Exprs, Name, Place};
use crate::program::{Array, Cell, Function, Numbers, Object, Program, Slot};
use crate::stmt::{Act, Stmt, Stmts};
use sqlite_items::{Boxed, Items};
use std::alloc::{AllocError, Global};

impl Expr {
    /// An equal expression. The one error is want of memory.
    pub fn copy(&self, alloc: Global) -> Result<Expr, AllocError>
        ensures { IfOk result (λ e. e ≡ self.now) }
    {
        match self {
            Expr::Number(n) => Ok(Expr::Number(*n)),
            Expr::Name(name) => Ok(Expr::Name(copy_name(alloc, name)?)),
            Expr::Element { name, index } => Ok(Expr::Element {
                name: copy_name(alloc, name)?,
                index: Boxed::new(alloc, index.get().copy(alloc)?)?,
            }),
            Expr::Arg(name) => Ok(Expr::Arg(copy_name(alloc, name)?)),
            Expr::Not(operand) => Ok(Expr::Not(Boxed::new(alloc, operand.get().copy(alloc)?)?)),
            Expr::Minus(operand) => Ok(Expr::Minus(Boxed::new(alloc, operand.get().copy(alloc)?)?)),
            Expr::Binary { op, left, right } => Ok(Expr::Binary {
                op: *op,
                left: Boxed::new(alloc, left.get().copy(alloc)?)?,
                right: Boxed::new(alloc, right.get().copy(alloc)?)?,
            }),
        }
    }
}

/// An equal name. The one error is want of memory.
pub fn copy_name(alloc: Global, name: &Name) -> Result<Name, AllocError>
    ensures { IfOk result (λ n. n ≡ name.now) }
{
    Items::from_slice(alloc, name.as_slice())
}

/// Equal expressions in their order. The one error is want of memory.
pub fn copy_exprs(alloc: Global, exprs: &Exprs) -> Result<Exprs, AllocError>
    ensures { IfOk result (λ es. es ≡ exprs.now) }
{
    let mut all = Items::new(alloc);
    for e in exprs.as_slice() {
        all.push(e.copy(alloc)?)?;
    }
    Ok(all)
}

fn copy_value(alloc: Global, value: &Option<Expr>) -> Result<Option<Expr>, AllocError>
    ensures { IfOk result (λ v. v ≡ value.now) }
{
    match value {
        None => Ok(None),
        Some(e) => Ok(Some(e.copy(alloc)?)),
    }
}

impl Place {
    /// An equal place. The one error is want of memory.
    pub fn copy(&self, alloc: Global) -> Result<Place, AllocError>
        ensures { IfOk result (λ p. p ≡ self.now) }
    {
        Ok(Place {
            name: copy_name(alloc, &self.name)?,
            index: copy_value(alloc, &self.index)?,
        })
    }
}

fn copy_target(alloc: Global, target: &Option<Place>) -> Result<Option<Place>, AllocError>
    ensures { IfOk result (λ t. t ≡ target.now) }
{
    match target {
        None => Ok(None),
        Some(p) => Ok(Some(p.copy(alloc)?)),
    }
}

fn copy_declare(alloc: Global, name: &Name, value: &Option<Expr>) -> Result<Act, AllocError>
    ensures { IfOk result (λ a. a ≡ Act.Declare name.now value.now) }
{
    Ok(Act::Declare {
        name: copy_name(alloc, name)?,
        value: copy_value(alloc, value)?,
    })
}

fn copy_assign(alloc: Global, target: &Place, value: &Expr) -> Result<Act, AllocError>
    ensures { IfOk result (λ a. a ≡ Act.Assign target.now value.now) }
{
    Ok(Act::Assign {
        target: target.copy(alloc)?,
        value: value.copy(alloc)?,
    })
}

fn copy_call(
    alloc: Global,
    target: &Option<Place>,
    function: &Name,
    args: &Exprs,
) -> Result<Act, AllocError>
    ensures { IfOk result (λ a. a ≡ Act.Call target.now function.now args.now) }
{
    Ok(Act::Call {
        target: copy_target(alloc, target)?,
        function: copy_name(alloc, function)?,
        args: copy_exprs(alloc, args)?,
    })
}

fn copy_return(alloc: Global, value: &Option<Expr>) -> Result<Act, AllocError>
    ensures { IfOk result (λ a. a ≡ Act.Return value.now) }
{
    Ok(Act::Return {
        value: copy_value(alloc, value)?,
    })
}

fn copy_read(alloc: Global, target: &Place) -> Result<Act, AllocError>
    ensures { IfOk result (λ a. a ≡ Act.Read target.now) }
{
    Ok(Act::Read {
        target: target.copy(alloc)?,
    })
}

fn copy_print(alloc: Global, format: &Name, args: &Exprs) -> Result<Act, AllocError>
    ensures { IfOk result (λ a. a ≡ Act.Print format.now args.now) }
{
    Ok(Act::Print {
        format: copy_name(alloc, format)?,
        args: copy_exprs(alloc, args)?,
    })
}

fn copy_create(alloc: Global, slot: &Place, function: &Name, arg: &Expr) -> Result<Act, AllocError>
    ensures { IfOk result (λ a. a ≡ Act.Create slot.now function.now arg.now) }
{
    Ok(Act::Create {
        slot: slot.copy(alloc)?,
        function: copy_name(alloc, function)?,
        arg: arg.copy(alloc)?,
    })
}

fn copy_join(alloc: Global, slot: &Place) -> Result<Act, AllocError>
    ensures { IfOk result (λ a. a ≡ Act.Join slot.now) }
{
    Ok(Act::Join {
        slot: slot.copy(alloc)?,
    })
}

fn copy_init_mutex(alloc: Global, place: &Place) -> Result<Act, AllocError>
    ensures { IfOk result (λ a. a ≡ Act.InitMutex place.now) }
{
    Ok(Act::InitMutex {
        place: place.copy(alloc)?,
    })
}

fn copy_init_cond(alloc: Global, place: &Place) -> Result<Act, AllocError>
    ensures { IfOk result (λ a. a ≡ Act.InitCond place.now) }
{
    Ok(Act::InitCond {
        place: place.copy(alloc)?,
    })
}

fn copy_lock(alloc: Global, place: &Place) -> Result<Act, AllocError>
    ensures { IfOk result (λ a. a ≡ Act.Lock place.now) }
{
    Ok(Act::Lock {
        place: place.copy(alloc)?,
    })
}

fn copy_unlock(alloc: Global, place: &Place) -> Result<Act, AllocError>
    ensures { IfOk result (λ a. a ≡ Act.Unlock place.now) }
{
    Ok(Act::Unlock {
        place: place.copy(alloc)?,
    })
}

fn copy_wait(alloc: Global, cond: &Place, mutex: &Place, takes: &Numbers) -> Result<Act, AllocError>
    ensures { IfOk result (λ a. a ≡ Act.Wait cond.now mutex.now takes.now) }
{
    Ok(Act::Wait {
        cond: cond.copy(alloc)?,
        mutex: mutex.copy(alloc)?,
        takes: Items::from_slice(alloc, takes.as_slice())?,
    })
}

fn copy_signal(alloc: Global, cond: &Place) -> Result<Act, AllocError>
    ensures { IfOk result (λ a. a ≡ Act.Signal cond.now) }
{
    Ok(Act::Signal {
        cond: cond.copy(alloc)?,
    })
}

fn copy_broadcast(alloc: Global, cond: &Place) -> Result<Act, AllocError>
    ensures { IfOk result (λ a. a ≡ Act.Broadcast cond.now) }
{
    Ok(Act::Broadcast {
        cond: cond.copy(alloc)?,
    })
}

impl Stmt {
    /// An equal statement with equal lines. The one error is want of memory.
    #[cycle(copy_stmt)]
    pub fn copy(&self, alloc: Global) -> Result<Stmt, AllocError>
        ensures { IfOk result (λ s. s ≡ self.now) }
    {
        Ok(Stmt {
            line: self.line,
            act: self.act.copy(alloc)?,
        })
    }
}

/// Equal statements with equal lines in their order. The one error is want of memory.
#[cycle(copy_stmt)]
pub fn copy_stmts(alloc: Global, stmts: &Stmts) -> Result<Stmts, AllocError>
    ensures { IfOk result (λ ss. ss ≡ stmts.now) }
{
    let mut all = Items::new(alloc);
    for s in stmts.as_slice() {
        all.push(s.copy(alloc)?)?;
    }
    Ok(all)
}

impl Act {
    /// An equal act with equal lines. The one error is want of memory.
    #[cycle(copy_stmt)]
    pub fn copy(&self, alloc: Global) -> Result<Act, AllocError>
        ensures { IfOk result (λ a. a ≡ self.now) }
    {
        match self {
            Act::If {
                test,
                then_arm,
                else_arm,
            } => Ok(Act::If {
                test: test.copy(alloc)?,
                then_arm: copy_stmts(alloc, then_arm)?,
                else_arm: copy_stmts(alloc, else_arm)?,
            }),
            Act::While { test, body } => Ok(Act::While {
                test: test.copy(alloc)?,
                body: copy_stmts(alloc, body)?,
            }),
            Act::For {
                first,
                test,
                step,
                body,
            } => Ok(Act::For {
                first: copy_stmts(alloc, first)?,
                test: test.copy(alloc)?,
                step: copy_stmts(alloc, step)?,
                body: copy_stmts(alloc, body)?,
            }),
            Act::TryLock { place, taken, busy } => Ok(Act::TryLock {
                place: place.copy(alloc)?,
                taken: copy_stmts(alloc, taken)?,
                busy: copy_stmts(alloc, busy)?,
            }),
            Act::Declare { name, value } => copy_declare(alloc, name, value),
            Act::Assign { target, value } => copy_assign(alloc, target, value),
            Act::Call {
                target,
                function,
                args,
            } => copy_call(alloc, target, function, args),
            Act::Return { value } => copy_return(alloc, value),
            Act::Read { target } => copy_read(alloc, target),
            Act::Print { format, args } => copy_print(alloc, format, args),
            Act::Create {
                slot,
                function,
                arg,
            } => copy_create(alloc, slot, function, arg),
            Act::Join { slot } => copy_join(alloc, slot),
            Act::InitMutex { place } => copy_init_mutex(alloc, place),
            Act::InitCond { place } => copy_init_cond(alloc, place),
            Act::Lock { place } => copy_lock(alloc, place),
            Act::Unlock { place } => copy_unlock(alloc, place),
            Act::Wait { cond, mutex, takes } => copy_wait(alloc, cond, mutex, takes),
            Act::Signal { cond } => copy_signal(alloc, cond),
            Act::Broadcast { cond } => copy_broadcast(alloc, cond),
            Act::Take { monitor } => Ok(Act::Take { monitor: *monitor }),
            Act::Give { monitor } => Ok(Act::Give { monitor: *monitor }),
        }
    }
}

/// What can be copied, so that the copy equals what it copies.
pub trait Copies: Sized + Drop {
    /// An equal value with equal lines. The one error is want of memory.
    fn copied(&self, alloc: Global) -> Result<Self, AllocError>
        ensures { IfOk result (λ x. x ≡ self.now) };
}

/// Equal items in their order. The one error is want of memory.
pub fn copy_items<T: Copies>(alloc: Global, items: &Items<T>) -> Result<Items<T>, AllocError>
    ensures { IfOk result (λ all. all ≡ items.now) }
{
    let mut all = Items::new(alloc);
    for item in items.as_slice() {
        all.push(item.copied(alloc)?)?;
    }
    Ok(all)
}

impl Copies for Name {
    fn copied(&self, alloc: Global) -> Result<Name, AllocError> {
        copy_name(alloc, self)
    }
}

impl Copies for Cell {
    fn copied(&self, alloc: Global) -> Result<Cell, AllocError> {
        Ok(Cell {
            name: copy_name(alloc, &self.name)?,
            value: self.value,
            line: self.line,
        })
    }
}

impl Copies for Array {
    fn copied(&self, alloc: Global) -> Result<Array, AllocError> {
        Ok(Array {
            name: copy_name(alloc, &self.name)?,
            len: self.len,
            values: Items::from_slice(alloc, self.values.as_slice())?,
            line: self.line,
        })
    }
}

impl Copies for Object {
    fn copied(&self, alloc: Global) -> Result<Object, AllocError> {
        Ok(Object {
            name: copy_name(alloc, &self.name)?,
            len: self.len,
            ready: self.ready,
            given: self.given,
            line: self.line,
        })
    }
}

impl Copies for Slot {
    fn copied(&self, alloc: Global) -> Result<Slot, AllocError> {
        Ok(Slot {
            name: copy_name(alloc, &self.name)?,
            len: self.len,
            line: self.line,
        })
    }
}

impl Copies for Function {
    fn copied(&self, alloc: Global) -> Result<Function, AllocError> {
        Ok(Function {
            name: copy_name(alloc, &self.name)?,
            kind: self.kind,
            params: copy_items(alloc, &self.params)?,
            body: copy_stmts(alloc, &self.body)?,
            line: self.line,
            end_line: self.end_line,
        })
    }
}

impl Program {
    /// An equal program with equal lines. The one error is want of memory.
    pub fn copy(&self, alloc: Global) -> Result<Program, AllocError>
        ensures { IfOk result (λ p. p ≡ self.now) }
    {
        Ok(Program {
            ints: copy_items(alloc, &self.ints)?,
            arrays: copy_items(alloc, &self.arrays)?,
            mutexes: copy_items(alloc, &self.mutexes)?,
            conds: copy_items(alloc, &self.conds)?,
            threads: copy_items(alloc, &self.threads)?,
            monitors: Items::from_slice(alloc, self.monitors.as_slice())?,
            functions: copy_items(alloc, &self.functions)?,
            cap_len: self.cap_len,
            cap_line: self.cap_line,
            end_line: self.end_line,
        })
    }
}
