//! The trees of the small language.

use sqlite_items::Boxed;

/// What stands between two operands. `Times` binds tighter.
#[derive(Clone, Copy, Debug, PartialEq, Eq)]
pub enum Operator {
    Plus,
    Times,
}

/// A sum.
#[derive(Debug, Drop)]
pub enum Sum {
    Number(u32),
    /// `( )`
    Nothing,
    /// `- operand`
    Negative(Boxed<Sum>),
    Binary(Operator, Boxed<Sum>, Boxed<Sum>),
}

/// A tree, and how many levels stand below its own. The operands of an operator and the inside of
/// parentheses are a level down, and so is what stands behind a `-`.
#[derive(Debug, Drop)]
pub struct Tall<T> {
    pub tree: T,
    pub height: u8,
}
