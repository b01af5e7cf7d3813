//! Sets of the places of a net, kept in two ways.
//!
//! [`PlaceSet`] says what a set is; [`ListSet`] keeps its places in a sorted list, and [`BitRow`] keeps
//! a bit for each place. Only making a set takes memory.
#![tactic(auto)]

mod list_set;
mod place_set;
mod row;
#[cfg(test)]
mod tests;
mod words;

pub use list_set::ListSet;
pub use place_set::PlaceSet;
pub use row::BitRow;
