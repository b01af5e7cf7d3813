// What the definitions say of small programs. The programs are in `specs/`.
ghost use Rattle.c_rules.specs.NamingSamples.{KeptNames, CopyNames, KeptMonitors, LongNames, RepeatedNames};
ghost use Rattle.c_rules.specs.UsingSamples.{ScopedNames, Misuses, Uses, Numbers, Recursions};
ghost use Rattle.c_rules.specs.ThreadSamples.{Mains, Creations, Joins, Arguments, Initialisations, Ranges};
ghost use Rattle.c_rules.specs.CountSamples.{Amounts, Enough, OneTooMany};
ghost use Rattle.c_rules.specs.FirstSamples.{Firsts};

/// Names that are kept for the tool, for POSIX threads and for the library are reserved.
pub fn kept_names_are_reserved()
    ensures { KeptNames }
{}

/// In mode Any a function may be named as the copy of a function that may be declared.
pub fn copies_are_named_in_any_mode()
    ensures { CopyNames }
{}

/// Programs of users have no monitors.
pub fn monitors_are_of_the_tool()
    ensures { KeptMonitors }
{}

/// A function's name has at most 56 characters in programs of users.
pub fn names_leave_room()
    ensures { LongNames }
{}

/// A name is declared once where it is in scope; the later line counts.
pub fn names_have_one_meaning()
    ensures { RepeatedNames }
{}

/// A local is in scope up to the end of its list, an outer name everywhere, a function from its definition on.
pub fn names_are_in_scope()
    ensures { ScopedNames }
{}

/// A name that is used as what it isn't is of the wrong kind.
pub fn misuses_are_wrong_kinds()
    ensures { Misuses }
{}

/// Each use that fits its name breaks nothing.
pub fn uses_fit()
    ensures { Uses }
{}

/// Arguments match parameters and formats, and values match members.
pub fn numbers_match()
    ensures { Numbers }
{}

/// A function that calls itself breaks a rule at the call.
pub fn recursions_are_found()
    ensures { Recursions }
{}

/// A program without main breaks a rule at its end.
pub fn main_is_there()
    ensures { Mains }
{}

/// Threads are created by statements of main's own list, each in a slot of its own.
pub fn threads_are_created_at_fixed_places()
    ensures { Creations }
{}

/// Threads are joined by statements of main's own list behind their create, each once.
pub fn threads_are_joined_at_fixed_places()
    ensures { Joins }
{}

/// The argument of a thread is built of numbers and has a value.
pub fn arguments_are_constant()
    ensures { Arguments }
{}

/// Objects are initialised in main, before anything may use them.
pub fn objects_are_initialised_early()
    ensures { Initialisations }
{}

/// Lengths and capacities aren't 0, and monitors are there.
pub fn ranges_are_not_empty()
    ensures { Ranges }
{}

/// A program may have 32 threads with main, 48 mutexes, 16 monitors and 65,536 ints with the
/// members of arrays; one more is too many.
pub fn amounts_are_limited()
    ensures exact { Amounts }
    ensures enough { Enough }
    ensures too_many { OneTooMany }
{}

/// Of several rules that are broken, the one at the least line is first, and at one line the first
/// in their order.
pub fn first_breaks_are_told()
    ensures { Firsts }
{}
