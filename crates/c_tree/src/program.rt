// Declarations, functions and whole programs.
ghost use Rattle.std.specs.Prelude.{◌≡◌, ◌<◌, length, position, bytes_eq, IfSome};

use crate::expr::{Name, Names};
use crate::stmt::Stmts;
use sqlite_items::Items;

/// Scalars of type `int`.
pub type Cells = Items<Cell>;

/// Arrays of type `int`.
pub type Arrays = Items<Array>;

/// Mutexes, or conditions.
pub type Objects = Items<Object>;

/// Threads.
pub type Slots = Items<Slot>;

/// Functions in the order of the text.
pub type Functions = Items<Function>;

/// The capacities of the monitors.
pub type Caps = Items<u32>;

/// Numbers that count monitors from 0.
pub type Numbers = Items<u32>;

/// Numbers of type `int`.
pub type Values = Items<i32>;

/// What a function is.
#[derive(Clone, Copy, Debug, PartialEq, Eq)]
pub enum Kind {
    /// `main`
    Main,
    /// The start function of threads.
    Thread,
    /// A function that gives an `int`.
    Int,
    /// A function that gives nothing.
    Void,
}

/// Which programs are meant.
#[derive(Clone, Copy, Debug, PartialEq, Eq)]
pub enum Mode {
    /// Programs of users, without monitors.
    Source,
    /// Those, and programs that have monitors.
    Any,
}

/// A scalar of type `int`.
#[derive(Debug, Drop)]
pub struct Cell {
    /// Its name.
    pub name: Name,
    /// Its value at the start.
    pub value: i32,
    /// The line of its name. It stands outside equality of programs.
    pub line: u32,
}

/// An array of type `int`.
#[derive(Debug, Drop)]
pub struct Array {
    /// Its name.
    pub name: Name,
    /// How many members it has.
    pub len: u32,
    /// The values at the start that the text gives; the other members begin with 0.
    pub values: Values,
    /// The line of its name. It stands outside equality of programs.
    pub line: u32,
}

/// A mutex or a condition, or an array of them.
#[derive(Debug, Drop)]
pub struct Object {
    /// Its name.
    pub name: Name,
    /// How many members an array has; none for a single object.
    pub len: Option<u32>,
    /// Whether the declaration has initialisers.
    pub ready: bool,
    /// How many initialisers it has: 1 at a single object, 0 where it isn't ready.
    pub given: u32,
    /// The line of its name. It stands outside equality of programs.
    pub line: u32,
}

/// A `pthread_t`, or an array of them.
#[derive(Debug, Drop)]
pub struct Slot {
    /// Its name.
    pub name: Name,
    /// How many members an array has; none for a single thread.
    pub len: Option<u32>,
    /// The line of its name. It stands outside equality of programs.
    pub line: u32,
}

/// A function.
#[derive(Debug, Drop)]
pub struct Function {
    /// Its name.
    pub name: Name,
    /// What it is.
    pub kind: Kind,
    /// Its parameters.
    pub params: Names,
    /// Its statements.
    pub body: Stmts,
    /// The line of its first token. It stands outside equality of programs.
    pub line: u32,
    /// The line of its closing brace. It stands outside equality of programs.
    pub end_line: u32,
}

/// A program: one C file.
#[derive(Debug, Drop)]
pub struct Program {
    /// The scalars of type `int`.
    pub ints: Cells,
    /// The arrays of type `int`.
    pub arrays: Arrays,
    /// The mutexes.
    pub mutexes: Objects,
    /// The conditions.
    pub conds: Objects,
    /// The threads.
    pub threads: Slots,
    /// The capacities of the monitors.
    pub monitors: Caps,
    /// The functions in the order of the text.
    pub functions: Functions,
    /// The length that the capacities are declared with, or 0 where they aren't declared.
    pub cap_len: u32,
    /// The line of the capacities, or 0. It stands outside equality of programs.
    pub cap_line: u32,
    /// 1 plus the number of newlines of the file. It stands outside equality of programs.
    pub end_line: u32,
}

impl Program {
    /// The place, counted from 0, of the first function of a name, and `None` exactly where the
    /// program has no function of that name.
    pub fn find_function(&self, name: &[u8]) -> Option<usize>
        ensures first { result ≡ position (λ f. bytes_eq f.name name.now) self.now.functions }
        ensures within { IfSome result (λ place. place < length self.now.functions) }
    {
        self.functions
            .as_slice()
            .iter()
            .position(|f| f.name.as_slice() == name)
    }
}
