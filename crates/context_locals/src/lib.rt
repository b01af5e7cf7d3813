//! The locals of a function that are constant in a context, by place in the text.
//!
//! A local that something is written into is constant nowhere. Another one is constant from its
//! declaration to the end of its block, where its first value is; a parameter is constant where its
//! argument is. Names, and the mutexes that places name, are numbered once in a function; a
//! context then keeps a value for each number, and undoes at the end of a block what was declared
//! in it.
#![tactic(auto)]

mod known;
mod mutexes;
mod names;
mod operands;
mod written;

pub use known::Known;
pub use mutexes::{MutexPlace, Mutexes, mutex_count};
pub use names::ConstantNames;
pub use operands::Operand;
pub use written::{Writes, int_names};
