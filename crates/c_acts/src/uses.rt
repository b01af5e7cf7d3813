// Names as the expressions and places of a statement use them.

ghost use Rattle.std.specs.Prelude.{◌≡◌, []};
ghost use Rattle.c_tree.specs.Expressions.{expr_of, exprs_of, value_of, place_of, target_of};
ghost use Rattle.c_rules.specs.Uses.{plain, of_expr, of_exprs, of_value, of_place, of_target, Use};
ghost use Rattle.c_names.specs.Tables.{in_scope};
ghost use Rattle.c_acts.specs.First.{noted_all};
ghost use Rattle.c_acts.specs.Uses.{around, use_of, use_breaks, uses_breaks};

use crate::first::{Break, note_if};
use c_names::{Names, Scope, fits, is_out_of_reach, meaning};
use c_rules::{Role, Rule};
use c_tree::{Expr, Function, Mode, Place};

/// The function that is looked at, and what it stands in.
#[derive(Clone, Copy)]
pub struct Inside<'a, 'p> {
    /// What is declared outside functions.
    pub names: &'a Names<'p>,
    /// Which programs are meant.
    pub mode: Mode,
    /// How many monitors there are.
    pub monitors: usize,
    /// The function.
    pub function: &'p Function,
    /// Its place among the functions, counted from 0.
    pub place: u32,
}

/// Looks at one use of a name.
pub fn check_use(
    at: &Inside,
    scope: &Scope,
    first: &mut Option<Break>,
    line: u32,
    name: &[u8],
    role: Role,
    indexed: bool,
)
    ensures { first.new ≡ noted_all first.old (use_breaks (around at.now) (in_scope scope.now) line (use_of name.now role indexed)) }
{
    let thing = meaning(at.names, scope, at.function, name);
    note_if(
        first,
        is_out_of_reach(at.place, &thing),
        Rule::Unknown,
        line,
    );
    if let Some(t) = &thing {
        note_if(first, !fits(t, role, indexed), Rule::WrongKind, line);
    }
}

/// Looks at the names in an expression.
pub fn check_expr(at: &Inside, scope: &Scope, first: &mut Option<Break>, line: u32, e: &Expr)
    ensures { first.new ≡ noted_all first.old (uses_breaks (around at.now) (in_scope scope.now) line (of_expr (expr_of e.now))) }
{
    match e {
        Expr::Number(_) => {}
        Expr::Name(name) => {
            check_use(at, scope, first, line, name.as_slice(), Role::Value, false);
        }
        Expr::Element { name, index } => {
            check_use(at, scope, first, line, name.as_slice(), Role::Value, true);
            check_expr(at, scope, first, line, index.get());
        }
        Expr::Arg(name) => {
            check_use(at, scope, first, line, name.as_slice(), Role::Cast, false);
        }
        Expr::Not(a) => check_expr(at, scope, first, line, a.get()),
        Expr::Minus(a) => check_expr(at, scope, first, line, a.get()),
        Expr::Binary { left, right, .. } => {
            check_expr(at, scope, first, line, left.get());
            check_expr(at, scope, first, line, right.get());
        }
    }
}

/// Looks at the names in expressions.
pub fn check_exprs(at: &Inside, scope: &Scope, first: &mut Option<Break>, line: u32, es: &[Expr])
    ensures { first.new ≡ noted_all first.old (uses_breaks (around at.now) (in_scope scope.now) line (of_exprs (exprs_of es.now))) }
{
    for e in es {
        check_expr(at, scope, first, line, e);
    }
}

/// Looks at the names in an expression that may be missing.
pub fn check_value(
    at: &Inside,
    scope: &Scope,
    first: &mut Option<Break>,
    line: u32,
    value: &Option<Expr>,
)
    ensures { first.new ≡ noted_all first.old (uses_breaks (around at.now) (in_scope scope.now) line (of_value (value_of value.now))) }
{
    if let Some(e) = value {
        check_expr(at, scope, first, line, e);
    }
}

/// Looks at the names in a place that is used as this.
pub fn check_place(
    at: &Inside,
    scope: &Scope,
    first: &mut Option<Break>,
    line: u32,
    place: &Place,
    role: Role,
)
    ensures { first.new ≡ noted_all first.old (uses_breaks (around at.now) (in_scope scope.now) line (of_place role (place_of place.now))) }
{
    check_use(
        at,
        scope,
        first,
        line,
        place.name.as_slice(),
        role,
        place.index.is_some(),
    );
    check_value(at, scope, first, line, &place.index);
}

/// Looks at the names in what a call's result is put into.
pub fn check_target(
    at: &Inside,
    scope: &Scope,
    first: &mut Option<Break>,
    line: u32,
    target: &Option<Place>,
)
    ensures { first.new ≡ noted_all first.old (uses_breaks (around at.now) (in_scope scope.now) line (of_target (target_of target.now))) }
{
    if let Some(place) = target {
        check_place(at, scope, first, line, place, Role::Value);
    }
}
