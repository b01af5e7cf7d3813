// What a table keeps.

ghost use Rattle.std.specs.Prelude.{◌≡◌, length};

use crate::mutex::Mutex;

/// What a thread begins with.
#[derive(Clone, Copy, Debug)]
pub struct Start {
    /// The place of its function, counted from 0.
    pub function: u32,
    /// Its argument.
    pub arg: i32,
}

/// The numbers of a well-formed program.
#[derive(Debug, Drop)]
pub struct Table {
    /// How many threads there are, with main.
    pub(crate) thread_count: u32,
    /// What they begin with.
    pub(crate) starts: Vec<Start>,
    /// The mutexes.
    pub(crate) mutexes: Vec<Mutex>,
    /// How many they are, with the members of arrays.
    pub(crate) mutex_count: u32,
    /// How many monitors there are.
    pub(crate) monitors: u32,
    ghost counted: { thread_count ≡ length starts.items },
}
