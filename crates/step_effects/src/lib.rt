//! What a step of a program does, as one of few effects, and what its threads have still to do.
//!
//! Each law is a function with an empty body, whose contract is the law.
#![tactic(auto)]

ghost use Rattle.c_tree.specs.Bare.{Stmt as AnyStmt};
ghost use Rattle.step_effects.specs.Effects.{EachStepHasOneEffect, EachThreadTurns};
ghost use Rattle.step_effects.specs.Todos.{TodosAreOfBodies};

/// A step that is done has one of thirteen effects on the state, whichever statement was done.
pub fn each_step_has_one_effect()
    ensures { EachStepHasOneEffect }
{}

/// A step that is done turns each thread in one of nine ways: it stays, goes on, ends, waits, is
/// woken, takes again or goes on behind its wait, or it begins a thread or is begun.
pub fn each_thread_turns()
    ensures { EachThreadTurns }
{}

/// A fact of statements.
pub trait Fact {
    /// It holds of a statement.
    ghost holds: { AnyStmt → Type 0 };
}

/// What holds of each statement of each function, at any depth, holds of each statement that the
/// threads of a reached state have still to do. Where it holds of a `for`, it has to hold of the
/// loop that comes behind its first part.
pub fn todos_are_of_bodies<F: Fact>()
    ensures { TodosAreOfBodies F.holds }
{}
