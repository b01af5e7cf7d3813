// How names are used.

/// As what a name is used.
#[derive(Clone, Copy, Debug, PartialEq, Eq)]
pub enum Role {
    /// An int that is read or written.
    Value,
    /// What is cast to `int`.
    Cast,
    /// A mutex.
    OfMutex,
    /// A condition.
    OfCondition,
    /// A thread.
    OfThread,
    /// A function that a thread begins with.
    Start,
    /// A function that is called, and whether its result is put somewhere.
    Called(bool),
}
