//! The weights by which a monitor is put into a program.
//!
//! A monitor bounds what threads hold of a set of resources: a thread holds as many of its tokens
//! as the moved weight of the point at which it stands says (Moody and Antsaklis, Supervisory
//! Control of Discrete Event Systems Using Petri Nets). [`weights`] gives the weight of each point
//! for a set, [`moved`] moves weights back to where locks are taken, [`entry`] says how many
//! tokens a thread has where it goes on from a point, and [`admissible`] whether none is held
//! while a thread waits for a signal. [`capacity`] is how many tokens the monitor has.
//!
//! [`laws`] has what holds of these numbers.
#![tactic(auto)]

mod entries;
mod followed;
pub mod laws;
mod move_back;
mod order;
mod raise;
mod waits;
mod weigh;

pub use entries::entry;
pub use move_back::moved;
pub use waits::admissible;
pub use weigh::{capacity, weights};
