// The rules of a well-formed program, and what is counted.

/// A rule of a well-formed program. Their order decides which one is answered where several are
/// broken at one line.
#[derive(Clone, Copy, Debug, PartialEq, Eq)]
pub enum Rule {
    /// A declared name is kept for the tool, for POSIX threads or for the library.
    Reserved,
    /// A function's name is longer than 56 characters.
    LongName,
    /// A name is declared where it is in scope.
    Twice,
    /// A name is used that isn't in scope.
    Unknown,
    /// A name is used as what it isn't.
    WrongKind,
    /// Arguments and parameters, or values and members, don't match.
    WrongCount,
    /// A function calls itself.
    Recursion,
    /// There is no main.
    NoMain,
    /// A thread isn't created at a fixed place.
    CreateNotFixed,
    /// A thread isn't joined at a fixed place.
    JoinNotFixed,
    /// The argument of a thread isn't constant.
    ArgNotConstant,
    /// An object is initialised too late.
    InitLate,
    /// A length, a capacity or a monitor is out of range.
    IndexRange,
}

/// What a program may have only so many of.
#[derive(Clone, Copy, Debug, PartialEq, Eq)]
pub enum Count {
    /// Threads, with main.
    Threads,
    /// Mutexes.
    Mutexes,
    /// Monitors.
    Monitors,
    /// Scalars and members of arrays.
    Cells,
}
