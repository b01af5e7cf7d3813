//! The check of a certificate against a net.
//!
//! A certificate has lines, each of which bounds what is held of a set of resources. It is valid where each line holds
//! and each candidate has a line that covers it: the least siphon of the line's set lies in that of the candidate. Then
//! no marking of the net has a stuck set. [`check`] answers whether a certificate is valid, or what is wrong with it.
//!
//! [`laws`] has how a valid certificate is made: of the first lines of all minimal sets.
#![tactic(auto)]

mod covers;
mod judging;
pub mod laws;
mod verdict;

pub use judging::check;
pub use verdict::{CheckFault, Verdict};
