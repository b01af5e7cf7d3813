//! Contexts: in which ways the functions of a program are entered, which mutex each lock names
//! there, and the outline of each thread.
//!
//! A walk through the program finds them, or refuses first. A relation says the same of statements
//! by themselves, which is what runs keep. Each law is a function with an empty body, whose
//! contract is the law.
#![tactic(auto)]

mod samples;

ghost use Rattle.std.specs.Prelude.{◌≡◌, ℕ, ℤ, List, Some};
ghost use Rattle.c_tree.specs.Bare as bare;
ghost use Rattle.c_tree.specs.Expressions.{Expr as AnyExpr, Place as AnyPlace};
ghost use Rattle.c_meaning.specs.State.{Locals, State as AnyState};
ghost use Rattle.c_meaning.specs.Places.{evaluated, mutex_at};
ghost use Rattle.contexts.specs.Constants.{Constants, constant_in};
ghost use Rattle.contexts.specs.Resolved.{resolved};
ghost use Rattle.contexts.specs.Agreeing.{Agrees, IsScoped};

pub use samples::{
    contexts_are_entered_in_order, locals_are_constant_where_nothing_writes,
    locks_are_resolved_where_they_are_reached,
};

/// In a frame whose locals have the values that are known, and where nothing is known of a name
/// that is written into or is that of an int, a constant expression has its value, and a place
/// that is resolved is that mutex.
pub fn constants_are_values()
    ensures values { (p : bare.Program) (writes : List (List ℕ)) (known : Constants) (s : AnyState) (locals : Locals) → Agrees known locals → IsScoped p writes known
        → (e : AnyExpr) (z : ℤ) → constant_in known e ≡ Some z → evaluated p s locals e ≡ Some z }
    ensures mutexes { (p : bare.Program) (writes : List (List ℕ)) (known : Constants) (s : AnyState) (locals : Locals) → Agrees known locals → IsScoped p writes known
        → (place : AnyPlace) (r : ℕ) → resolved p known place ≡ Some r → mutex_at p s locals place ≡ Some r }
{}
