// Expressions and places.

ghost use Rattle.std.specs.Prelude.{◌≡◌, [], ◌∷◌, ◌++◌, OnOk};
ghost use Rattle.c_lexer.specs.declared.token.Sign.TheVariants as s;
ghost use Rattle.c_layout.specs.Layout as tokens;
ghost use Rattle.c_layout.specs.Layout.{text};
ghost use Rattle.c_tree.specs.Expressions as tree;
ghost use Rattle.c_tree.specs.Expressions.{expr_of, place_of};
ghost use Rattle.c_canonical.specs.Expressions as spec;

use crate::writing::{put, put_number};
use c_tree::{Expr, Op, Place};
use std::alloc::{AllocError, Global};

/// How tightly an operator binds.
fn binding(op: Op) -> u8
    ensures { result ≡ spec.binding op }
{
    match op {
        Op::Or => 0,
        Op::And => 1,
        Op::Eq | Op::Ne => 2,
        Op::Lt | Op::Le | Op::Gt | Op::Ge => 3,
        Op::Add | Op::Sub => 4,
        Op::Mul | Op::Div | Op::Rem => 5,
    }
}

/// How tightly an expression is held together.
fn strength(e: &Expr) -> u8
    ensures { result ≡ spec.strength (expr_of e.now) }
{
    match e {
        Expr::Binary { op, .. } => binding(*op),
        _ => 6,
    }
}

pub fn is_binary(e: &Expr) -> bool
    ensures { result ≡ spec.is_binary (expr_of e.now) }
{
    matches!(e, Expr::Binary { .. })
}

fn is_minus(e: &Expr) -> bool
    ensures { result ≡ spec.is_minus (expr_of e.now) }
{
    matches!(e, Expr::Minus(_))
}

/// An operator between spaces.
fn operator(out: &mut Vec<u8>, op: Op) -> Result<(), AllocError>
    ensures { OnOk result (out.new.items ≡ out.old.items ++ text (spec.operator op)) }
{
    match op {
        Op::Or => put(out, b" || "),
        Op::And => put(out, b" && "),
        Op::Eq => put(out, b" == "),
        Op::Ne => put(out, b" != "),
        Op::Lt => put(out, b" < "),
        Op::Le => put(out, b" <= "),
        Op::Gt => put(out, b" > "),
        Op::Ge => put(out, b" >= "),
        Op::Add => put(out, b" + "),
        Op::Sub => put(out, b" - "),
        Op::Mul => put(out, b" * "),
        Op::Div => put(out, b" / "),
        Op::Rem => put(out, b" % "),
    }
}

/// The sign `-`, and a space before another one.
fn minus(out: &mut Vec<u8>, again: bool) -> Result<(), AllocError>
    ensures { OnOk result (out.new.items ≡ out.old.items ++ text (tokens.sign s.Minus ∷ spec.spaced again [])) }
{
    if again {
        put(out, b"- ")
    } else {
        put(out, b"-")
    }
}

/// An operand, in parentheses where they are needed.
#[cycle(expression)]
pub fn operand(
    out: &mut Vec<u8>,
    alloc: Global,
    e: &Expr,
    parentheses: bool,
) -> Result<(), AllocError>
    ensures { OnOk result (out.new.items ≡ out.old.items ++ text (spec.wrapped parentheses (spec.expression (expr_of e.now)))) }
{
    if parentheses {
        put(out, b"(")?;
        expression(out, alloc, e)?;
        put(out, b")")?;
        Ok(())
    } else {
        expression(out, alloc, e)
    }
}

/// The canonical text of an expression at the end of `out`.
#[cycle(expression)]
pub fn expression(out: &mut Vec<u8>, alloc: Global, e: &Expr) -> Result<(), AllocError>
    ensures { OnOk result (out.new.items ≡ out.old.items ++ text (spec.expression (expr_of e.now))) }
{
    match e {
        Expr::Number(n) => put_number(out, alloc, *n),
        Expr::Name(name) => put(out, name.as_slice()),
        Expr::Element { name, index } => {
            put(out, name.as_slice())?;
            put(out, b"[")?;
            expression(out, alloc, index.get())?;
            put(out, b"]")?;
            Ok(())
        }
        Expr::Arg(name) => {
            put(out, b"(int)(long)")?;
            put(out, name.as_slice())?;
            Ok(())
        }
        Expr::Not(a) => {
            put(out, b"!")?;
            operand(out, alloc, a.get(), is_binary(a.get()))?;
            Ok(())
        }
        Expr::Minus(a) => {
            minus(out, is_minus(a.get()))?;
            operand(out, alloc, a.get(), is_binary(a.get()))?;
            Ok(())
        }
        Expr::Binary { op, left, right } => {
            operand(out, alloc, left.get(), strength(left.get()) < binding(*op))?;
            operator(out, *op)?;
            operand(
                out,
                alloc,
                right.get(),
                strength(right.get()) <= binding(*op),
            )?;
            Ok(())
        }
    }
}

/// A member's index in brackets.
fn bracketed(out: &mut Vec<u8>, alloc: Global, e: &Expr) -> Result<(), AllocError>
    ensures { OnOk result (out.new.items ≡ out.old.items ++ text (spec.in_brackets (spec.expression (expr_of e.now)))) }
{
    put(out, b"[")?;
    expression(out, alloc, e)?;
    put(out, b"]")?;
    Ok(())
}

/// The canonical text of a place at the end of `out`.
pub fn place(out: &mut Vec<u8>, alloc: Global, p: &Place) -> Result<(), AllocError>
    ensures { OnOk result (out.new.items ≡ out.old.items ++ text (spec.place (place_of p.now))) }
{
    put(out, p.name.as_slice())?;
    match &p.index {
        None => Ok(()),
        Some(e) => bracketed(out, alloc, e),
    }
}
