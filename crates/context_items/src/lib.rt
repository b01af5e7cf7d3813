//! The walk through the contexts of a program along lists of items, in place of its statements.
//!
//! It is what a program can do without a recursion into statements: a function is a list, and a
//! call of a function that bears locks is the only thing that nests. Each law is a function with
//! an empty body, whose contract is the law.
#![tactic(auto)]

ghost use Rattle.std.specs.Prelude.{◌≡◌};
ghost use Rattle.c_canonical.specs.ShapedPrograms.{ShapedProgram};
ghost use Rattle.c_rules.specs.Formed.{Formed};
ghost use Rattle.c_tree.specs.Lined.{Program as AnyProgram, bare_program};
ghost use Rattle.c_tree.specs.declared.program.Mode.{Mode as AnyMode};
ghost use Rattle.contexts.specs.Firsts.{HasFirstParts};
ghost use Rattle.contexts.specs.Walk.{Found, then_walk};
ghost use Rattle.contexts.specs.Outlines.{outlines};
ghost use Rattle.context_items.specs.Flat.{flat_marks};
ghost use Rattle.context_items.specs.Marks.{marks_of};
ghost use Rattle.context_items.specs.Unshadowed.{IsUnshadowed};

/// Where no local is declared while one of its name is in scope, the walk along items finds the
/// marks of the outlines that the walk through statements finds, with the same contexts, and is
/// refused where that is refused, for the same reason at the same line.
pub fn items_give_the_marks()
    ensures { (p : AnyProgram) → IsUnshadowed p → flat_marks p ≡ then_walk (outlines p) (λ es n. Found (marks_of es) n) }
{}

/// In a program that is shaped as the grammar has it, the first part of each `for` is nothing, a
/// declaration or an assignment.
pub fn shaped_loops_have_first_parts()
    ensures { (p : AnyProgram) → ShapedProgram (bare_program p) → HasFirstParts p }
{}

/// In a well-formed program that is shaped so no local is declared while one of its name is in
/// scope.
pub fn well_formed_programs_are_unshadowed()
    ensures { (p : AnyProgram) (mode : AnyMode) → Formed p mode → ShapedProgram (bare_program p) → IsUnshadowed p }
{}
