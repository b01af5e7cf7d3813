//! The minimal sets of a net, in memory that is taken first.
//!
//! A candidate is a set of resources in which each is reached from each by arcs of hold-and-wait
//! inside the set. It is minimal where no other candidate's least siphon lies in its own. Whoever
//! bounds what is held of the minimal sets keeps every circle of blocked threads from closing.
//!
//! A [`SiphonRoom`] is made before a net is seen. [`minimal_siphons`] leaves the minimal sets of a
//! net in it, and takes no memory.
#![tactic(auto)]

mod listing;
mod minimal;
mod room;
mod unions;

pub use minimal::{EnumError, minimal_siphons};
pub use room::SiphonRoom;
