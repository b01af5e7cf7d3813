//! What the words of a command line ask for.
//!
//! A first word is the name of a command. Behind it stand the names of its files, in their order, and
//! its options, before, between and behind them. A word that begins with `-`, other than `-` itself, is
//! an option, unless it stands behind the word `--`. `--siphons N` and `--siphons=N` mean the same, and
//! each option stands at most once. Numbers have one to nine decimal digits.
//!
//! The words behind the command are read by `clap`. What it finds is proved to be what they give, read
//! one after the other: a word that begins with `-` is no value for `clap`, and no number here.
#![tactic(auto)]

mod command;
mod given;
mod task;

pub use command::Command;
pub use task::{Task, task_of};
