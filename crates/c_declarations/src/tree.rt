//! What declarations are read as.

use c_tree::{Array, Arrays, Caps, Cell, Cells, Kind, Name, Names};

/// A scalar or an array of type `int`.
#[derive(Debug, Drop)]
pub enum Declared {
    /// A scalar.
    Scalar(Cell),
    /// An array.
    Several(Array),
}

/// Scalars and arrays, each in the order of the text.
#[derive(Debug, Drop)]
pub struct Ints {
    /// The scalars.
    pub cells: Cells,
    /// The arrays.
    pub arrays: Arrays,
}

/// Which kind of object a declaration is of.
#[derive(Clone, Copy, Debug, PartialEq, Eq)]
pub enum Sort {
    /// Mutexes.
    Mutex,
    /// Conditions.
    Condition,
}

/// The capacities of the monitors.
#[derive(Debug, Drop)]
pub struct Capacities {
    /// The length that they are declared with.
    pub len: u32,
    /// The capacities.
    pub values: Caps,
    /// The line of their name.
    pub line: u32,
}

/// The head of a function.
#[derive(Debug, Drop)]
pub struct Head {
    /// Its name.
    pub name: Name,
    /// What it is.
    pub kind: Kind,
    /// Its parameters.
    pub params: Names,
    /// The line of its first token.
    pub line: u32,
}

/// What stands behind `int`.
#[derive(Debug, Drop)]
pub enum Begun {
    /// Scalars and arrays, up to their `;`.
    Cells(Ints),
    /// The head of a function, up to its `)`.
    Head(Head),
    /// The capacities, up to the end of the prototypes of `gd_take` and `gd_give` behind them.
    Capacities(Capacities),
}
