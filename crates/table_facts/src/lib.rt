//! What the table of a well-formed program says: written names name their resources, and threads
//! are numbered as in the meaning.
//!
//! Each law is a function with an empty body, whose contract is the law.
#![tactic(auto)]

mod laws;

pub use laws::{names_are_of_resources, resources_are_counted, threads_are_those_of_the_table};
