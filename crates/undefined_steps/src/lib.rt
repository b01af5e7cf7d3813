//! Why a step of a program is undefined.
//!
//! Each law is a function with an empty body, whose contract is the law.
#![tactic(auto)]

ghost use Rattle.undefined_steps.specs.Laws.{CauseIsUndefined, FormedIsProper, FormedUndefinedHasCause, UndefinedHasCause};

/// In each state that a well-formed program reaches, a step is undefined for one of these causes
/// alone: an expression has no value, since a local has none, an index is out of range, a result
/// doesn't fit or a divisor is 0; an index of a place is out of range; a mutex is unlocked or
/// waited with by another thread than its owner; a token is given that isn't held; a call's result
/// is wanted and its function gives none.
///
/// The program has a tree as the grammar gives it: of that, main's kind and the first parts of
/// `for` loops count, of which no rule speaks.
pub fn undefined_steps_have_causes()
    ensures { FormedUndefinedHasCause }
{}

/// The same of any program whose statements name what is there, and whose threads are created in
/// main's own list, each once; and a well-formed program is one.
pub fn well_formed_programs_are_proper()
    ensures proper { FormedIsProper }
    ensures causes { UndefinedHasCause }
{}

/// In any state, where a thread has such a cause, what it does next is undefined.
pub fn causes_are_exact()
    ensures { CauseIsUndefined }
{}
