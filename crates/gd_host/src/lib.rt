//! The outside of the tool: files that are read, text that is written, and what of it failed.
//!
//! [`Host`] says what the tool may know of the outside, [`MemoryHost`] keeps it all in memory and is
//! exact, and [`RealHost`] reaches the system through the runtime.
#![tactic(auto)]

mod host;
mod memory;
mod real;

pub use host::{EmitFailed, FetchError, Host};
pub use memory::MemoryHost;
pub use real::RealHost;
