//! Tests of what no command shows: the trees of programs that are read, and read again as they are
//! printed, the host in memory, and acts that want memory.
//!
//! They stand in one crate, since a crate with tests is proved twice.
#![tactic(auto)]

#[cfg(test)]
mod again;
#[cfg(test)]
mod hosts;
#[cfg(test)]
mod memory;
#[cfg(test)]
mod trees;
