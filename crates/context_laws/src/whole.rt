// What each outline of a program keeps.
ghost use Rattle.std.specs.Prelude.{ℕ, List};
ghost use Rattle.c_tree.specs.Lined.{Program as AnyProgram, bare_program};
ghost use Rattle.c_tree.specs.Numbering.{mutex_count, resource_count};
ghost use Rattle.outlines.specs.Outline.{Thread as AnyThread};
ghost use Rattle.outlines.specs.Whole.{ThreadsName, ThreadsAreWhole};
ghost use Rattle.rule_facts.specs.Regular.{Regular};
ghost use Rattle.contexts.specs.Threads.{Outlines};

/// The outlines of a program that keeps the rules name resources that are there; what a wait takes
/// before its mutex are monitors; and each function's outline ends with a return.
pub fn outlines_are_whole()
    ensures { (p : AnyProgram) (es : List AnyThread) (places : List ℕ) → Regular p → Outlines p es places
        → ThreadsName (resource_count (bare_program p)) es × ThreadsAreWhole (mutex_count (bare_program p)) es }
{}
