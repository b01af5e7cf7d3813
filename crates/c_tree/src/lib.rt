//! The tree of a C program with POSIX threads.
//!
//! Every crate above reads and writes these types. Beside them, `specs/` shows the tree to the
//! contracts as plain data: with its lines (`Lined`), and without them (`Bare`), which is what
//! programs are compared by and what their meaning is defined on.
#![tactic(auto)]

mod copies;
mod expr;
mod program;
mod stmt;

pub use copies::{Copies, copy_exprs, copy_items, copy_name, copy_stmts};
pub use expr::{Expr, Exprs, Name, Names, Op, Place};
pub use program::{
    Array, Arrays, Caps, Cell, Cells, Function, Functions, Kind, Mode, Numbers, Object, Objects,
    Program, Slot, Slots, Values,
};
pub use stmt::{Act, Stmt, Stmts};
