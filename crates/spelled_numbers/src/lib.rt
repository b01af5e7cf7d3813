//! The numbers of programs that texts spell.
//!
//! The steps of a program are computed where the numbers of its expressions are small (`c_steps`). Each program that a
//! text spells has only such numbers ([`spelled_is_small`]), so one that was parsed can be started.
//! So has each program that can be written at all ([`writable_is_small`]).
#![tactic(auto)]

mod laws;

pub use laws::{spelled_is_small, writable_is_small};
