//! A program that is printed and read again.
//!
//! The printer (`c_print`) and the parser (`c_parser`) stand each on the grammar, and know nothing of one
//! another. [`round_trip`] is the law that puts them together.
#![tactic(auto)]

mod laws;

pub use laws::round_trip;
