// What the walk finds in small programs.
ghost use Rattle.std.specs.Prelude.{◌≡◌, [], ◌∷◌, codes, length, None};
ghost use Rattle.c_tree.specs.declared.expr.Op.TheVariants.{Add, And, Div};
ghost use Rattle.c_tree.specs.Expressions.{Binary, Number};
ghost use Rattle.c_tree.specs.Lined.{Assign, Return};
ghost use Rattle.outlines.specs.Outline.{Acquire, Branch, Leave, Loop, Release, Step, Try};
ghost use Rattle.contexts.specs.Walk.{TooMany, Unresolved};
ghost use Rattle.contexts.specs.Outlines.{outlines};
ghost use Rattle.contexts.specs.Samples.{added, adding, call, calls, counting, declare, entered_thrice, i, k, lock, outline_of_main, parts, places_of, program, single, trying, two_arms, unlock, with_main, x};

/// A function that bears locks is a context each time that it is called, behind a return too;
/// contexts are numbered in the order in which they are entered, main first.
pub fn contexts_are_entered_in_order()
    ensures places { places_of (outlines entered_thrice) ≡ 0 ∷ 0 ∷ 0 ∷ 1 ∷ [] }
    ensures outlined { outline_of_main (outlines entered_thrice) ≡ parts (added 9 1 0 ∷ added 10 2 1 ∷ Leave 11 ∷ added 12 3 0 ∷ Leave 20 ∷ []) }
    ensures most { length (places_of (outlines (adding (calls 255)))) ≡ 256 }
    ensures too_many { outlines (adding (calls 256)) ≡ TooMany }
{}

/// A lock is refused where its index isn't constant in a context or is out of range, wherever it
/// stands in a function that is entered, and in no other function.
pub fn locks_are_resolved_where_they_are_reached()
    ensures of_a_cell { outlines (with_main (lock 9 x ∷ [])) ≡ Unresolved 9 }
    ensures in_a_context { outlines (adding (call 9 (Number 0) ∷ call 10 x ∷ [])) ≡ Unresolved 4 }
    ensures out_of_range { outlines (adding (call 9 (Number 2) ∷ [])) ≡ Unresolved 4 }
    ensures behind_a_return { outlines (with_main (Return 9 None ∷ unlock 10 x ∷ [])) ≡ Unresolved 10 }
    ensures of_a_trylock { outlines (trying x) ≡ Unresolved 9 }
    ensures elsewhere { places_of (outlines (program (lock 4 x ∷ []) (Return 9 None ∷ []))) ≡ 1 ∷ [] }
{}

/// A local is constant where it was declared with a constant value and its function doesn't write
/// into its name; a side of `&&` that isn't evaluated may be undefined, but names no cell.
pub fn locals_are_constant_where_nothing_writes()
    ensures written { outlines (with_main (declare 9 (Number 0) ∷ lock 10 k ∷ Assign 11 (single (codes "k")) (Number 1) ∷ [])) ≡ Unresolved 10 }
    ensures undefined { outline_of_main (outlines (with_main (lock 9 (Binary And (Number 0) (Binary Div (Number 1) (Number 0))) ∷ []))) ≡ parts (Acquire 9 0 ∷ Leave 20 ∷ []) }
    ensures cell { outlines (with_main (lock 9 (Binary And (Number 0) x) ∷ [])) ≡ Unresolved 9 }
    ensures arms { outline_of_main (outlines two_arms) ≡ parts (Branch 9 (parts (Step 10 ∷ Acquire 11 0 ∷ Release 12 0 ∷ [])) (parts (Step 13 ∷ Acquire 14 1 ∷ Release 15 1 ∷ [])) ∷ Leave 20 ∷ []) }
    ensures counted { outline_of_main (outlines (counting [])) ≡ parts (Step 9 ∷ Loop 9 (parts (Acquire 10 0 ∷ Release 11 0 ∷ [])) ∷ Leave 20 ∷ []) }
    ensures stepped { outlines (counting (Assign 9 (single (codes "k")) (Binary Add k (Number 1)) ∷ [])) ≡ Unresolved 10 }
    ensures tried { outline_of_main (outlines (trying (Number 0))) ≡ parts (Try 9 0 (parts (Release 10 1 ∷ [])) (parts (Step 11 ∷ [])) ∷ Leave 20 ∷ []) }
{}
