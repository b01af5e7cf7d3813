//! Each program has a trace by each schedule on each input, and one alone.
//!
//! Nothing here is computed: it is what holds of traces, whichever way they are made.
#![tactic(auto)]

ghost use Rattle.std.specs.Prelude.{◌≡◌, ℤ, List};
ghost use Rattle.c_tree.specs.Bare as bare;
ghost use Rattle.c_check.specs.Tables.{Numbers};
ghost use Rattle.c_meaning.specs.declared.Event.{Event as AnyEvent};
ghost use Rattle.schedule_runner.specs.declared.runs.Trace.{Trace as AnyTrace};
ghost use Rattle.schedule_runner.specs.Traces.{IsTrace};

/// A program, an input and a schedule have a trace, and one alone.
pub fn one_trace()
    ensures some { (p : bare.Program) (n : Numbers) (input : List ℤ) (es : List AnyEvent) → (t : AnyTrace) × IsTrace p n input es t }
    ensures one { (p : bare.Program) (n : Numbers) (input : List ℤ) (es : List AnyEvent) (t u : AnyTrace)
        → IsTrace p n input es t → IsTrace p n input es u → t ≡ u }
{}
