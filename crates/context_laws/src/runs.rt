// What the outlines of a program say to its runs.
ghost use Rattle.std.specs.Prelude.{◌≡◌, ℕ, List, [], ◌∷◌, suc, true, false, Some};
ghost use Rattle.c_tree.specs.Bare as bare;
ghost use Rattle.c_tree.specs.Everywhere.{Everywhere};
ghost use Rattle.c_tree.specs.Expressions.{Expr as AnyExpr, Place as AnyPlace};
ghost use Rattle.c_tree.specs.Lined.{Function as AnyFunction, Program as AnyProgram, bare_function, bare_program};
ghost use Rattle.c_tree.specs.Numbering.{function_named, main_name, scalar_cell};
ghost use Rattle.c_tree.specs.Values.{constant};
ghost use Rattle.outlines.specs.Outline.{Thread as AnyThread};
ghost use Rattle.rule_facts.specs.Regular.{Regular};
ghost use Rattle.contexts.specs.Constants.{among};
ghost use Rattle.contexts.specs.Firsts.{HasFirstParts};
ghost use Rattle.contexts.specs.Outlined.{IsCreation};
ghost use Rattle.contexts.specs.Quiet.{IsQuiet};
ghost use Rattle.contexts.specs.Resolved.{writes_of};
ghost use Rattle.contexts.specs.Threads.{code_of, Outlines, ThreadAt};

/// The function that an outline enters by a name is the one that a call of this name runs; an int
/// counts as written into in each function; a function that bears no locks takes and gives
/// nothing, and calls none that does; and main, and what each create statement begins, have the
/// outlines of their threads.
pub fn runs_find_what_outlines_say()
    ensures functions { (p : AnyProgram) (places : List ℕ) (name : List ℕ) (f : ℕ × AnyFunction) → Regular p → (code_of p places).function name ≡ Some f
        → function_named (bare_program p) name ≡ Some (bare_function f.1) }
    ensures ints { (p : bare.Program) (f : AnyFunction) (name : List ℕ) (cell : ℕ) → scalar_cell p name ≡ Some cell → among (writes_of p f) name ≡ true }
    ensures quiet { (p : AnyProgram) (places : List ℕ) (name : List ℕ) (g : bare.Function) → Regular p → HasFirstParts p
        → function_named (bare_program p) name ≡ Some g → (code_of p places).bears name ≡ false → Everywhere (IsQuiet (code_of p places)) g.body }
    ensures main { (p : AnyProgram) (es : List AnyThread) (places : List ℕ) → Outlines p es places → ThreadAt (code_of p places) (main_name, []) es 0 }
    ensures created { (p : AnyProgram) (es : List AnyThread) (places : List ℕ) → Outlines p es places → (slot : AnyPlace) (name : List ℕ) (arg : AnyExpr)
        → (c : IsCreation (bare_program p) slot name arg) → ThreadAt (code_of p places) (name, constant arg ∷ []) es (suc c.creation) }
{}
