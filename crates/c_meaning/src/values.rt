// The values of expressions of 32 bits.
ghost use Rattle.std.specs.Prelude.{◌≡◌, pos, Some, None};
ghost use Rattle.c_tree.specs.Values as spec;
ghost use Rattle.c_tree.specs.Values.{Values, truth, is_true};
ghost use Rattle.c_tree.specs.Expressions.{expr_of};
ghost use Rattle.c_meaning.specs.Numbers.{HasSmallNumbers, decided};

use c_tree::{Expr, Op};

/// What the names of an expression stand for, as `values` says it.
pub trait Scope {
    /// What each name stands for, where it stands for something.
    ghost values: { Self → Values };

    /// The value of a scalar.
    fn scalar(&self, name: &[u8]) -> Option<i32>
        ensures { result ≡ (values self.now).scalar name.now };

    /// The value of a member of an array.
    fn element(&self, name: &[u8], index: i32) -> Option<i32>
        ensures { result ≡ (values self.now).element name.now index };
}

/// A test gives 1 or 0.
fn truth(is: bool) -> i32
    ensures { result ≡ truth is }
{
    if is { 1 } else { 0 }
}

/// Whether a number counts as true.
fn is_true(number: i32) -> bool
    ensures { result ≡ is_true number }
{
    number != 0
}

/// An operator on two values, and none where the result is undefined.
fn applied(op: Op, a: i32, b: i32) -> Option<i32>
    ensures { result ≡ spec.applied op a b }
{
    match op {
        Op::Or => Some(truth(is_true(a) || is_true(b))),
        Op::And => Some(truth(is_true(a) && is_true(b))),
        Op::Eq => Some(truth(a == b)),
        Op::Ne => Some(truth(a != b)),
        Op::Lt => Some(truth(a < b)),
        Op::Le => Some(truth(a <= b)),
        Op::Gt => Some(truth(a > b)),
        Op::Ge => Some(truth(a >= b)),
        Op::Add => a.checked_add(b),
        Op::Sub => a.checked_sub(b),
        Op::Mul => a.checked_mul(b),
        Op::Div => a.checked_div(b),
        Op::Rem => a.checked_rem(b),
    }
}

/// What the left side alone decides: true for `||`, and false for `&&`.
fn decided(op: Op, a: i32) -> Option<i32>
    ensures { result ≡ decided op a }
{
    match op {
        Op::Or if is_true(a) => Some(1),
        Op::And if !is_true(a) => Some(0),
        _ => None,
    }
}

/// The value of an expression, and none where it is undefined.
pub fn value<S: Scope>(scope: &S, e: &Expr) -> Option<i32>
    requires small { HasSmallNumbers (expr_of e.now) }
    ensures { result ≡ spec.value (S.values scope.now) (expr_of e.now) }
{
    match e {
        Expr::Number(n) => Some(*n as i32),
        Expr::Name(name) => scope.scalar(name.as_slice()),
        Expr::Element { name, index } => scope.element(name.as_slice(), value(scope, index.get())?),
        Expr::Arg(name) => scope.scalar(name.as_slice()),
        Expr::Not(a) => Some(truth(!is_true(value(scope, a.get())?))),
        Expr::Minus(a) => value(scope, a.get())?.checked_neg(),
        Expr::Binary { op, left, right } => {
            let a = value(scope, left.get())?;
            match decided(*op, a) {
                Some(result) => Some(result),
                None => applied(*op, a, value(scope, right.get())?),
            }
        }
    }
}
