//! Whether a net is covered: whether each minimal set of resources has a line.
//!
//! A line bounds what a point holds of a set of resources. Where each minimal set has one that
//! holds, no marking of the net has a stuck set. [`first_bad_set`] finds the first minimal set for
//! which no simple line holds: whoever bounds what is held of it makes a covered net of this one, or
//! brings the next bad set to light.
#![tactic(auto)]

mod bad;
pub mod laws;

pub use bad::first_bad_set;
