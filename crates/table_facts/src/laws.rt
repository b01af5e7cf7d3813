// What the table of a well-formed program says of its resources and threads.

ghost use Rattle.std.specs.Prelude.{◌≡◌, ◌+◌, ◌<◌, ◌++◌, ℕ, List, Option, codes, slice_get, Some};
ghost use Rattle.c_tree.specs.declared.program.Mode.{Mode as AnyMode};
ghost use Rattle.c_tree.specs.Bare.{Program as BareProgram};
ghost use Rattle.c_tree.specs.Lined.{Program as AnyProgram, bare_program};
ghost use Rattle.c_tree.specs.Numbering.{Creation, creations, mutex_count, monitor_resource, main_name};
ghost use Rattle.c_rules.specs.Formed.{Formed};
ghost use Rattle.c_check.specs.Tables.{numbers_of, resource_in};
ghost use Rattle.c_check.specs.Written.{name_of, bracketed};
ghost use Rattle.table_facts.specs.Named.{NamesMutex};
ghost use Rattle.table_facts.specs.Numbered.{StartOf, ThreadOf};

/// What is written for a resource names it: a mutex by its name and its index, which have this
/// number in the table, and a monitor by its number among the monitors.
pub fn names_are_of_resources()
    ensures mutexes { (p : AnyProgram) (mode : AnyMode) (r : ℕ) → Formed p mode → r < mutex_count (bare_program p) → NamesMutex (bare_program p) (name_of (numbers_of (bare_program p)) r) r }
    ensures monitors { (p : BareProgram) (k : ℕ) → name_of (numbers_of p) (monitor_resource p k) ≡ codes "gd" ++ bracketed k }
{}

/// The number that a table has for a mutex is below how many mutexes there are.
pub fn resources_are_counted()
    ensures { (p : BareProgram) (name : List ℕ) (index : Option ℕ) (r : ℕ) → resource_in (numbers_of p).mutexes name index ≡ Some r → r < mutex_count p }
{}

/// In a well-formed program the threads of the meaning, which are numbered by the slots of create
/// statements, are those of the table, which are numbered by their order.
pub fn threads_are_those_of_the_table()
    ensures main { (p : AnyProgram) (mode : AnyMode) → Formed p mode → StartOf (bare_program p) 0 main_name }
    ensures others { (p : AnyProgram) (mode : AnyMode) (k : ℕ) (c : Creation) → Formed p mode → slice_get (creations (bare_program p)) k ≡ Some c → ThreadOf (bare_program p) k c }
{}
