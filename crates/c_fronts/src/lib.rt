//! What stands outside functions takes tokens that are no definitions, and doesn't depend on those behind it.
//!
//! So it is the same whether the tokens behind it are seen with the definitions before it, or with those among
//! them too.
#![tactic(auto)]

ghost use Rattle.c_fronts.specs.Laws.{CapacitiesTake, CellsTake, FunctionsTake, ObjectsTake, SlotsTake};

/// Scalars and arrays.
pub fn cells_take()
    ensures { CellsTake }
{}

/// Mutexes and conditions.
pub fn objects_take()
    ensures { ObjectsTake }
{}

/// Threads.
pub fn slots_take()
    ensures { SlotsTake }
{}

/// The capacities.
pub fn capacities_take()
    ensures { CapacitiesTake }
{}

/// Functions, with their bodies.
pub fn functions_take()
    ensures { FunctionsTake }
{}
