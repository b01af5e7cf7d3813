// Expressions, of which what is the same in each context is found once.
ghost use Rattle.c_tree.specs.Expressions.{expr_of};
ghost use Rattle.c_meaning.specs.Numbers.{HasSmallNumbers};
ghost use Rattle.context_locals.specs.Operands.{IsNamed, IsOperandOf};

use crate::names::ConstantNames;
use c_tree::{Expr, Name};

/// An expression of a function, whose value in a context is asked for.
#[derive(Clone, Copy, Debug)]
pub enum Operand<'p> {
    /// It has this value in each context, or has none in any.
    Fixed(Option<i32>),
    /// It is the local of this number.
    Local(usize),
    /// It has operators.
    Other(&'p Expr),
}

impl<'p> ConstantNames<'p> {
    /// The local of a name, as an expression.
    fn named(&self, name: &Name) -> Operand<'p>
        ensures { IsNamed self.now name.now result }
    {
        match self.place(name.as_slice()) {
            Some(k) => Operand::Local(k),
            None => Operand::Fixed(None),
        }
    }

    /// An expression of the function whose names these are.
    pub fn operand(&self, e: &'p Expr) -> Operand<'p>
        requires { HasSmallNumbers (expr_of e.now) }
        ensures { IsOperandOf self.now (expr_of e.now) result }
    {
        match e {
            Expr::Number(n) => Operand::Fixed(Some(*n as i32)),
            Expr::Name(name) => self.named(name),
            Expr::Arg(name) => self.named(name),
            Expr::Element { .. } => Operand::Fixed(None),
            _ => Operand::Other(e),
        }
    }
}
