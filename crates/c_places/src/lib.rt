//! The numbers of a program's cells, mutexes, conditions, functions and threads by their names.
//!
//! A step of a program looks these numbers up in hash tables, which are built once.
#![tactic(auto)]

mod creations;
mod named;
mod numbers;
mod table;

pub use numbers::Numbers;
