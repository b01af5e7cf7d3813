//! Tests of trees that no text spells, and of what is made of them: they are copied and printed,
//! judged by the rules, and their functions called.
//!
//! They stand in one crate, since a crate with tests is proved twice.
#![tactic(auto)]

#[cfg(test)]
mod copies;
#[cfg(test)]
mod first;
#[cfg(test)]
mod frames;
#[cfg(test)]
mod printing;
#[cfg(test)]
mod rules;
