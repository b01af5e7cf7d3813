//! The top call, which is all that the program `gadara_tool` does: from words and a host to a status.
//!
//! It fetches the files that the words name, asks `answers` what is to be answered of them, and tells it.
#![tactic(auto)]

mod fetching;
pub mod laws;
mod telling;
mod top;

pub use telling::complain;
pub use top::gadara;
