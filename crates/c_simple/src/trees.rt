//! Statements as trees, with their lines and levels.

ghost use Rattle.std.specs.Prelude.{◌≡◌, ◌<◌, IfOk, None, Some};
ghost use Rattle.c_tree.specs.Expressions.{expr_of, exprs_of, place_of, value_of};
ghost use Rattle.c_tree.specs.Lined.{stmt_of};
ghost use Rattle.c_grammar.specs.Expressions as grammar;
ghost use Rattle.c_grammar.specs.Levels as levels;
ghost use Rattle.c_expressions.specs.Gives.{tall_of};
ghost use Rattle.c_simple.specs.Gives.{called_of, levels_in, source_of, statements_of};
ghost use Rattle.c_simple.specs.Parsers as spec;

use crate::values::{Called, Source};
use c_expressions::tall::Tall;
use c_tree::{Act, Expr, Exprs, Name, Numbers, Op, Place, Stmt, Stmts, copy_name};
use sqlite_items::{Boxed, Items};
use std::alloc::{AllocError, Global};

/// Statements and their levels, or want of memory.
pub type Made = Result<Tall<Stmts>, AllocError>;

/// One statement, with so many levels below its own.
pub fn alone(alloc: Global, line: u32, act: Act, below: u8) -> Made
    requires { below < 200 }
    ensures { IfOk result (λ x. tall_of statements_of x ≡ levels.alone (stmt_of (record { line = line; act = act })) below) }
{
    let mut tree = Items::new(alloc);
    tree.push(Stmt { line, act })?;
    Ok(Tall {
        tree,
        levels: below + 1,
    })
}

// ---- assignments

fn assign(alloc: Global, line: u32, target: Tall<Place>, value: Tall<Expr>) -> Made
    requires target { target.levels < 200 }
    requires value { value.levels < 200 }
    ensures { IfOk result (λ x. tall_of statements_of x ≡ spec.set_to line (tall_of place_of target) (spec.Value (tall_of expr_of value))) }
{
    let below = target.levels.max(value.levels);
    let act = Act::Assign {
        target: target.tree,
        value: value.tree,
    };
    alone(alloc, line, act, below)
}

fn call_into(alloc: Global, line: u32, target: Tall<Place>, call: Tall<Called>) -> Made
    requires target { target.levels < 200 }
    requires call { call.levels < 200 }
    ensures { IfOk result (λ x. tall_of statements_of x ≡ spec.set_to line (tall_of place_of target) (spec.Call (tall_of called_of call))) }
{
    let below = target.levels.max(call.levels);
    let Called { function, args } = call.tree;
    let act = Act::Call {
        target: Some(target.tree),
        function,
        args,
    };
    alone(alloc, line, act, below)
}

/// A place that is given a value.
pub fn set_to(alloc: Global, line: u32, target: Tall<Place>, source: Source) -> Made
    requires target { target.levels < 200 }
    requires source { levels_in source < 200 }
    ensures { IfOk result (λ x. tall_of statements_of x ≡ spec.set_to line (tall_of place_of target) (source_of source)) }
{
    match source {
        Source::Value(value) => assign(alloc, line, target, value),
        Source::Call(call) => call_into(alloc, line, target, call),
    }
}

// The value of a place, as an expression.
fn value_at(alloc: Global, place: Place) -> Result<Expr, AllocError>
    ensures { IfOk result (λ e. expr_of e ≡ grammar.value_at (place_of place)) }
{
    let Place { name, index } = place;
    match index {
        None => Ok(Expr::Name(name)),
        Some(index) => Ok(Expr::Element {
            name,
            index: Boxed::new(alloc, index)?,
        }),
    }
}

// An operator between the value of a place and another.
fn operated(alloc: Global, op: Op, place: &Place, value: Expr) -> Result<Expr, AllocError>
    ensures { IfOk result (λ e. expr_of e ≡ spec.operated op (place_of place.now) (expr_of value)) }
{
    let left = value_at(alloc, place.copy(alloc)?)?;
    let left = Boxed::new(alloc, left)?;
    let right = Boxed::new(alloc, value)?;
    Ok(Expr::Binary { op, left, right })
}

/// A place that is changed by an operator and a value.
pub fn change_by(alloc: Global, line: u32, op: Op, target: Tall<Place>, value: Tall<Expr>) -> Made
    requires target { target.levels < 200 }
    requires value { value.levels < 200 }
    ensures { IfOk result (λ x. tall_of statements_of x ≡ spec.change_by line op (tall_of place_of target) (tall_of expr_of value)) }
{
    let below = target.levels.max(value.levels);
    let target = target.tree;
    let value = operated(alloc, op, &target, value.tree)?;
    alone(alloc, line, Act::Assign { target, value }, below)
}

/// A place that is changed by one.
pub fn counted(alloc: Global, line: u32, op: Op, target: Tall<Place>) -> Made
    requires { target.levels < 200 }
    ensures { IfOk result (λ x. tall_of statements_of x ≡ spec.counted line op (tall_of place_of target)) }
{
    let below = target.levels;
    let target = target.tree;
    let value = operated(alloc, op, &target, Expr::Number(1))?;
    alone(alloc, line, Act::Assign { target, value }, below)
}

// ---- declarations

/// A declaration without a value.
pub fn bare(alloc: Global, line: u32, name: &[u8]) -> Made
    ensures { IfOk result (λ x. tall_of statements_of x ≡ spec.bare line name.now) }
{
    let name = Items::from_slice(alloc, name)?;
    alone(alloc, line, Act::Declare { name, value: None }, 0)
}

fn declared_value(alloc: Global, line: u32, name: &[u8], value: Tall<Expr>) -> Made
    requires { value.levels < 200 }
    ensures { IfOk result (λ x. tall_of statements_of x ≡ spec.declared_as line name.now (spec.Value (tall_of expr_of value))) }
{
    let below = value.levels;
    let act = Act::Declare {
        name: Items::from_slice(alloc, name)?,
        value: Some(value.tree),
    };
    alone(alloc, line, act, below)
}

fn declared_call(alloc: Global, line: u32, name: &[u8], call: Tall<Called>) -> Made
    requires { call.levels < 200 }
    ensures { IfOk result (λ x. tall_of statements_of x ≡ spec.declared_as line name.now (spec.Call (tall_of called_of call))) }
{
    let name: Name = Items::from_slice(alloc, name)?;
    let target = Place {
        name: copy_name(alloc, &name)?,
        index: None,
    };
    let Called { function, args } = call.tree;
    let act = Act::Declare { name, value: None };
    let mut tree = Items::new(alloc);
    tree.push(Stmt { line, act })?;
    let act = Act::Call {
        target: Some(target),
        function,
        args,
    };
    tree.push(Stmt { line, act })?;
    Ok(Tall {
        tree,
        levels: call.levels + 1,
    })
}

/// A declaration with a value.
pub fn declared_as(alloc: Global, line: u32, name: &[u8], source: Source) -> Made
    requires { levels_in source < 200 }
    ensures { IfOk result (λ x. tall_of statements_of x ≡ spec.declared_as line name.now (source_of source)) }
{
    match source {
        Source::Value(value) => declared_value(alloc, line, name, value),
        Source::Call(call) => declared_call(alloc, line, name, call),
    }
}

/// Statements, and others behind them.
#[tactic(auto, using(crate::proofs::Turns::statements_grow))]
pub fn followed(all: Tall<Stmts>, more: Tall<Stmts>) -> Made
    ensures { IfOk result (λ x. tall_of statements_of x ≡ levels.followed (tall_of statements_of all) (tall_of statements_of more)) }
{
    let levels = all.levels.max(more.levels);
    let mut tree = all.tree;
    tree.append(more.tree)?;
    Ok(Tall { tree, levels })
}

// ---- results and calls

/// What a function gives back.
pub fn returned(alloc: Global, line: u32, value: Option<Expr>, below: u8) -> Made
    requires { below < 200 }
    ensures { IfOk result (λ x. tall_of statements_of x ≡ spec.returned line (value_of value) below) }
{
    alone(alloc, line, Act::Return { value }, below)
}

/// A call of a function of the program.
pub fn call_statement(alloc: Global, line: u32, call: Tall<Called>) -> Made
    requires { call.levels < 200 }
    ensures { IfOk result (λ x. tall_of statements_of x ≡ spec.call_statement line (tall_of called_of call)) }
{
    let below = call.levels;
    let Called { function, args } = call.tree;
    let act = Act::Call {
        target: None,
        function,
        args,
    };
    alone(alloc, line, act, below)
}

/// `printf`
pub fn printed(alloc: Global, line: u32, format: &[u8], args: Tall<Exprs>) -> Made
    requires { args.levels < 200 }
    ensures { IfOk result (λ x. tall_of statements_of x ≡ spec.printed line format.now (tall_of exprs_of args)) }
{
    let below = args.levels;
    let act = Act::Print {
        format: Items::from_slice(alloc, format)?,
        args: args.tree,
    };
    alone(alloc, line, act, below)
}

/// `pthread_create`
pub fn created(
    alloc: Global,
    line: u32,
    slot: Tall<Place>,
    function: &[u8],
    arg: Tall<Expr>,
) -> Made
    requires slot { slot.levels < 200 }
    requires arg { arg.levels < 200 }
    ensures { IfOk result (λ x. tall_of statements_of x ≡ spec.created line (tall_of place_of slot) function.now (tall_of expr_of arg)) }
{
    let below = slot.levels.max(arg.levels);
    let act = Act::Create {
        slot: slot.tree,
        function: Items::from_slice(alloc, function)?,
        arg: arg.tree,
    };
    alone(alloc, line, act, below)
}

/// `pthread_cond_wait`, or `gd_cond_wait` where it takes tokens
pub fn waited(
    alloc: Global,
    line: u32,
    cond: Tall<Place>,
    mutex: Tall<Place>,
    takes: Numbers,
) -> Made
    requires cond { cond.levels < 200 }
    requires mutex { mutex.levels < 200 }
    ensures { IfOk result (λ x. tall_of statements_of x ≡ spec.waited line (tall_of place_of cond) (tall_of place_of mutex) takes) }
{
    let below = cond.levels.max(mutex.levels);
    let act = Act::Wait {
        cond: cond.tree,
        mutex: mutex.tree,
        takes,
    };
    alone(alloc, line, act, below)
}
