//! The outlines of a program, as a walk finds them and as a relation says what they are.
//!
//! Each law is a function with an empty body, whose contract is the law.
#![tactic(auto)]

mod runs;
mod whole;

ghost use Rattle.std.specs.Prelude.{◌≡◌, ℕ, List};
ghost use Rattle.c_tree.specs.Lined.{Program as AnyProgram};
ghost use Rattle.outlines.specs.Outline.{Thread as AnyThread};
ghost use Rattle.rule_facts.specs.Regular.{Regular};
ghost use Rattle.contexts.specs.Walk.{Found};
ghost use Rattle.contexts.specs.Outlines.{outlines};
ghost use Rattle.contexts.specs.Firsts.{HasFirstParts};
ghost use Rattle.contexts.specs.Threads.{Outlines};

pub use runs::runs_find_what_outlines_say;
pub use whole::outlines_are_whole;

/// In a program that keeps the rules, and whose loops have first parts as the grammar has them,
/// what the walk finds are outlines of its threads, with at most 256 contexts, numbered in the
/// order in which they are entered.
pub fn walks_find_outlines()
    ensures { (p : AnyProgram) (es : List AnyThread) (places : List ℕ) → Regular p → HasFirstParts p → outlines p ≡ Found es places → Outlines p es places }
{}

/// In such a program the walk finds the outlines that its threads have, with their contexts, where
/// there are any.
pub fn outlines_are_found()
    ensures { (p : AnyProgram) (es : List AnyThread) (places : List ℕ) → Regular p → HasFirstParts p → Outlines p es places → outlines p ≡ Found es places }
{}

/// So the threads of such a program have one list of outlines, with one list of contexts.
pub fn outlines_are_alone()
    ensures { (p : AnyProgram) (es fs : List AnyThread) (places others : List ℕ) → Regular p → HasFirstParts p → Outlines p es places → Outlines p fs others
        → (es ≡ fs) × (places ≡ others) }
{}
