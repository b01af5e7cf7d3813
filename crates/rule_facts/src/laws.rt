// What the rules of programs say of each statement.

ghost use Rattle.std.specs.Prelude.{◌≡◌, ◌+◌, ◌<◌, ◌≤◌, ℕ, ℤ, List, Option, Contains, Some, sum_by};
ghost use Rattle.c_tree.specs.declared.program.Mode.{Mode as AnyMode};
ghost use Rattle.c_tree.specs.Bare.{Object as AnyObject, Program as BareProgram};
ghost use Rattle.c_tree.specs.Lined.{Program as AnyProgram};
ghost use Rattle.c_tree.specs.Numbering.{numbered, object_count, mutex_of, mutex_count};
ghost use Rattle.c_rules.specs.Formed.{Formed};
ghost use Rattle.c_rules.specs.Sites.{Site, sites};
ghost use Rattle.c_rules.specs.Uses.{Use, uses_of};
ghost use Rattle.rule_facts.specs.Regular.{Regular};
ghost use Rattle.rule_facts.specs.FromLast.{HasRegularNames};
ghost use Rattle.rule_facts.specs.Meant.{Meant};

/// In a well-formed program names outside functions differ, a call names a function above with as
/// many parameters, places name objects of their kinds, monitors are there and have capacities,
/// and threads are created and joined in main's own list alone, each in a slot of its own: the
/// slot of the create statement k there means the thread k + 1.
pub fn rules_say_what_is_meant()
    ensures { (p : AnyProgram) (mode : AnyMode) → Formed p mode → Regular p }
{}

/// In a well-formed program each name that a statement uses means something that is made for this
/// use, and that stands no further below than the statement's function.
pub fn each_use_is_meant()
    ensures { (p : AnyProgram) (mode : AnyMode) → Formed p mode → (site : Site) (u : Use) → Contains (sites p) site → Contains (uses_of site.stmt) u → Meant p site u }
{}

/// Where statements are as the rules say, the functions from the last call only those behind them
/// in this order, and each is found by its name.
pub fn functions_call_those_above()
    ensures { (p : AnyProgram) → Regular p → HasRegularNames p }
{}

/// The number of a mutex or of a condition is below how many there are, in any program.
pub fn numbers_are_counted()
    ensures objects { (before : ℕ) (objects : List AnyObject) (name : List ℕ) (index : Option ℤ) (r : ℕ) → numbered before objects name index ≡ Some r → (before ≤ r) × (r < before + sum_by object_count objects) }
    ensures mutexes { (p : BareProgram) (name : List ℕ) (index : Option ℤ) (r : ℕ) → mutex_of p name index ≡ Some r → r < mutex_count p }
{}
