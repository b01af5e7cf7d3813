//! What the rules say of each statement of a well-formed program.
//!
//! Each law is a function with an empty body, whose contract is the law.
#![tactic(auto)]

mod laws;

pub use laws::{
    each_use_is_meant, functions_call_those_above, numbers_are_counted, rules_say_what_is_meant,
};
