//! What a state of a run consists of: its threads with the frames of their calls, what is seen from a frame, the tokens of
//! its monitors, and what a program starts with.
#![tactic(auto)]

pub mod arguments;
pub mod first;
pub mod frames;
pub mod new_frames;
pub mod starting;
pub mod statements;
pub mod tables;
pub mod target;
pub mod threads;
pub mod tokens;
pub mod view;
pub mod waiting;
