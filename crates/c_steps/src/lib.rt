//! The steps of a program, computed: a state of a run, and what an event does in it.
#![tactic(auto)]

mod acting;
mod blocked;
mod blocks;
mod branching;
mod calling;
mod creating;
mod endings;
mod locks;
mod movers;
mod retaking;
mod settings;
mod sight;
mod starting;
mod state;
mod step;
mod trying;
mod waits;

pub use state::{State, Stepped};
