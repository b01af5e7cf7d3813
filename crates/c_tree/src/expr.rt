// Names, operators, expressions and places.

use sqlite_items::{Boxed, Items};

/// The bytes of a name, or of the text of a format.
pub type Name = Items<u8>;

/// Names in order, as of a function's parameters.
pub type Names = Items<Name>;

/// Expressions in order, as the arguments of a call.
pub type Exprs = Items<Expr>;

/// The operators of two operands, of which C's section 6.5 (expressions) says the precedence.
#[derive(Clone, Copy, Debug, PartialEq, Eq)]
pub enum Op {
    /// `||`
    Or,
    /// `&&`
    And,
    /// `==`
    Eq,
    /// `!=`
    Ne,
    /// `<`
    Lt,
    /// `<=`
    Le,
    /// `>`
    Gt,
    /// `>=`
    Ge,
    /// `+`
    Add,
    /// `-`
    Sub,
    /// `*`
    Mul,
    /// `/`
    Div,
    /// `%`
    Rem,
}

/// An expression of type `int`.
#[derive(Debug, Drop)]
pub enum Expr {
    /// A number, at most 2147483647.
    Number(u32),
    /// The value of a scalar.
    Name(Name),
    /// The value of a member of an array.
    Element {
        /// The array.
        name: Name,
        /// The member's place, counted from 0.
        index: Boxed<Expr>,
    },
    /// A thread's parameter, cast to `int`.
    Arg(Name),
    /// `!`
    Not(Boxed<Expr>),
    /// The sign `-` before one operand.
    Minus(Boxed<Expr>),
    /// An operator between two operands.
    Binary {
        /// The operator.
        op: Op,
        /// The operand on its left.
        left: Boxed<Expr>,
        /// The operand on its right.
        right: Boxed<Expr>,
    },
}

/// What can be assigned to, locked, started or waited for: a scalar, or a member of an array.
#[derive(Debug, Drop)]
pub struct Place {
    /// The scalar or the array.
    pub name: Name,
    /// The member's place, counted from 0; none at a scalar.
    pub index: Option<Expr>,
}
