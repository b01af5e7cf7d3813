//! Laws of the weights by which a monitor is put into a program.
//!
//! The weight of a point says how many tokens of a new monitor a thread has to hold there, so
//! that the monitor bounds what is held of a set of resources outside its least siphon (Moody and
//! Antsaklis, Supervisory Control of Discrete Event Systems Using Petri Nets; Wang, Kelly,
//! Kudlur, Lafortune and Mahlke, Gadara: Dynamic Deadlock Avoidance for Multithreaded Programs).
//!
//! Each law is a function with an empty body, whose contract is the law.
#![tactic(auto)]

pub mod inserted;
pub mod moved;
