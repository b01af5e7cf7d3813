// Samples that are spelled, each with the whole tree. The texts are in `specs/Spelled.antt`.
ghost use Rattle.c_grammar.specs.Spelled.{Declarations, MonitorCalls, Functions, Threads, Philosophers, DefinedKeyword, Assignments, Calls, LibraryCalls, Expressions, Casts, Choices, Trylocks, Loops, Lines};

/// Scalars, arrays, mutexes, conditions and threads, with and without values, `static`, and a name that is defined as a number.
pub fn declarations_are_spelled()
    ensures { Declarations }
{}

/// Capacities with their declarations, calls that take and give, and a wait that takes afterwards.
pub fn monitor_calls_are_spelled()
    ensures { MonitorCalls }
{}

/// Functions of each kind with what they return. Each has the line of its first token behind `static`.
pub fn functions_are_spelled()
    ensures { Functions }
{}

/// Threads that main declares, creates and joins. The threads stand outside functions in the program.
pub fn threads_are_spelled()
    ensures { Threads }
{}

/// Three philosophers, each with the fork on the left and the fork on the right: a whole program.
pub fn philosophers_are_spelled()
    ensures { Philosophers }
{}

/// A keyword that is defined is a number from there on, and no keyword.
pub fn defined_keywords_are_spelled()
    ensures { DefinedKeyword }
{}

/// Assignments, and those that are read as one.
pub fn assignments_are_spelled()
    ensures { Assignments }
{}

/// Several declarations at once, a declaration by a call, which is two statements, and calls. `main`, `k`, `c` and `m` may be called.
pub fn calls_are_spelled()
    ensures { Calls }
{}

/// The calls of the library and of POSIX threads.
pub fn library_calls_are_spelled()
    ensures { LibraryCalls }
{}

/// Operators of each looseness; those of one looseness group to the left.
pub fn expressions_are_spelled()
    ensures { Expressions }
{}

/// A cast of a name is an argument of a thread. The names of types and of the library are names like others.
pub fn casts_are_spelled()
    ensures { Casts }
{}

/// An `else` belongs to the nearest `if` before it that has none.
pub fn choices_are_spelled()
    ensures { Choices }
{}

/// A trylock in its four spellings, with an `else` and without: it gives 0 where it took the mutex.
pub fn trylocks_are_spelled()
    ensures { Trylocks }
{}

/// Loops with and without their parts. A missing test is the number 1.
pub fn loops_are_spelled()
    ensures { Loops }
{}

/// A statement has the line of its first token; a declaration, and a call in one, that of the name.
pub fn lines_are_spelled()
    ensures { Lines }
{}
