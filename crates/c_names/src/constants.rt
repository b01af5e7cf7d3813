// Constant expressions.

ghost use Rattle.std.specs.Prelude.{◌≡◌, pos, negsuc, int_le, ◌&&◌, option_map};
ghost use Rattle.c_tree.specs.declared.expr.Op.TheVariants as op;
ghost use Rattle.c_tree.specs.Expressions.{expr_of};
ghost use Rattle.c_tree.specs.Values as values;
ghost use Rattle.c_rules.specs.Threads as spec;

use c_tree::{Expr, Op};

/// Whether an expression has a name in it.
pub fn has_name(e: &Expr) -> bool
    ensures { result ≡ spec.has_name (expr_of e.now) }
{
    match e {
        Expr::Number(_) => false,
        Expr::Name(_) => true,
        Expr::Element { .. } => true,
        Expr::Arg(_) => true,
        Expr::Not(a) => has_name(a.get()),
        Expr::Minus(a) => has_name(a.get()),
        Expr::Binary { left, right, .. } => has_name(left.get()) || has_name(right.get()),
    }
}

/// A number that 32 bits hold.
fn fitting(z: i64) -> Option<i64>
    ensures { result ≡ values.fitting z }
{
    if -2147483648 <= z && z <= 2147483647 {
        Some(z)
    } else {
        None
    }
}

fn sum(a: i64, b: i64) -> Option<i64>
    ensures { result ≡ values.applied op.Add a b }
{
    fitting(a.checked_add(b)?)
}

fn difference(a: i64, b: i64) -> Option<i64>
    ensures { result ≡ values.applied op.Sub a b }
{
    fitting(a.checked_sub(b)?)
}

fn product(a: i64, b: i64) -> Option<i64>
    ensures { result ≡ values.applied op.Mul a b }
{
    fitting(a.checked_mul(b)?)
}

fn quotient(a: i64, b: i64) -> Option<i64>
    ensures { result ≡ values.applied op.Div a b }
{
    fitting(a.checked_div(b)?)
}

fn remainder(a: i64, b: i64) -> Option<i64>
    ensures { result ≡ values.applied op.Rem a b }
{
    let _quotient = quotient(a, b)?;
    a.checked_rem(b)
}

fn truth(b: bool) -> i64
    ensures { result ≡ values.truth b }
{
    if b { 1 } else { 0 }
}

/// The result of an operator whose operands are both evaluated.
fn applied(op: Op, a: i64, b: i64) -> Option<i64>
    ensures { result ≡ values.applied op a b }
{
    match op {
        Op::Or => Some(truth(a != 0 || b != 0)),
        Op::And => Some(truth(a != 0 && b != 0)),
        Op::Eq => Some(truth(a == b)),
        Op::Ne => Some(truth(a != b)),
        Op::Lt => Some(truth(a < b)),
        Op::Le => Some(truth(a <= b)),
        Op::Gt => Some(truth(a > b)),
        Op::Ge => Some(truth(a >= b)),
        Op::Add => sum(a, b),
        Op::Sub => difference(a, b),
        Op::Mul => product(a, b),
        Op::Div => quotient(a, b),
        Op::Rem => remainder(a, b),
    }
}

/// `||`, which doesn't evaluate its right side where the left one decides.
fn either(left: Option<i64>, right: Option<i64>) -> Option<i64>
    ensures { result ≡ values.either left right }
{
    if left? != 0 {
        return Some(1);
    }
    Some(truth(right? != 0))
}

/// `&&`, which doesn't either.
fn both(left: Option<i64>, right: Option<i64>) -> Option<i64>
    ensures { result ≡ values.both left right }
{
    if left? == 0 {
        return Some(0);
    }
    Some(truth(right? != 0))
}

/// The value of an operator between two operands, of which each may have none.
fn combined(op: Op, left: Option<i64>, right: Option<i64>) -> Option<i64>
    ensures { result ≡ values.combined op left right }
{
    match op {
        Op::Or => either(left, right),
        Op::And => both(left, right),
        _ => applied(op, left?, right?),
    }
}

/// The value of an expression in which no name stands for anything.
pub fn constant(e: &Expr) -> Option<i64>
    ensures { result ≡ values.constant (expr_of e.now) }
{
    match e {
        Expr::Number(k) => Some(*k as i64),
        Expr::Name(_) => None,
        Expr::Element { .. } => None,
        Expr::Arg(_) => None,
        Expr::Not(a) => Some(truth(constant(a.get())? == 0)),
        Expr::Minus(a) => fitting(constant(a.get())?.checked_neg()?),
        Expr::Binary { op, left, right } => {
            combined(*op, constant(left.get()), constant(right.get()))
        }
    }
}

/// The value of an expression that is built of numbers alone.
pub fn number_of(e: &Expr) -> Option<i64>
    ensures { result ≡ spec.number_of (expr_of e.now) }
{
    if has_name(e) { None } else { constant(e) }
}
