//! Laws of runs: lists of events, each of which may happen in its turn.
//!
//! Nothing here knows what the states and the events are: each law is of any type that has them, as
//! a trait. Each law is a function with an empty body, whose contract is the law.
#![tactic(auto)]

ghost use Rattle.std.specs.Prelude.{◌≡◌, List, ◌++◌, Some, option_and_then};
ghost use Rattle.std.specs.declared.option.Option.{Option as AnyOption};
ghost use Rattle.run_laws.specs.Runs.{run, matched, Follows, Arrives};

/// States, which go from one to the next by events.
pub trait System {
    /// What may happen.
    type Event;

    /// The state after an event, where the event may happen.
    ghost step: { Self.Event → Self → AnyOption Self };
}

/// A fact of states that each event keeps.
pub trait Kept: System {
    /// The fact.
    ghost holds: { Self → Type 0 };

    /// An event leads from a state of which it holds to another one.
    ghost kept: { (e : Self.Event) (s next : Self) → Self.step e s ≡ Some next → holds s → holds next };
}

/// States that go along with those of another system: each of their events is matched by one of the
/// other's, or by none.
pub trait Followed<T: System>: System {
    /// The event that matches one, by the state in which that happens, or none.
    ghost match_of: { Self.Event → Self → AnyOption T.Event };

    /// A state goes along with another one.
    ghost related: { Self → T → Type 0 };

    /// Where states go along, so do those behind an event and behind what matches it.
    ghost followed: { (e : Self.Event) (s next : Self) (t : T) → Self.step e s ≡ Some next → related s t → Follows T.step (related next) t (match_of e s) };
}

/// Events and others behind them lead where the others lead from the state that the first ones lead to.
pub fn runs_go_on<S: System>()
    ensures { (es fs : List S.Event) (s : S) → run S.step (es ++ fs) s ≡ option_and_then (run S.step fs) (run S.step es s) }
{}

/// A fact that each event keeps holds behind a run of which it holds at the start.
pub fn invariants_hold_along_runs<S: Kept>()
    ensures { (es : List S.Event) (s next : S) → run S.step es s ≡ Some next → S.holds s → S.holds next }
{}

/// Where each event of one system is matched by one of another or by none, what matches the events
/// of a run is a run of the other system, to a state that goes along with the first one's.
pub fn matched_events_are_a_run<T: System, S: Followed<T>>()
    ensures { (es : List S.Event) (s next : S) (t : T) → run S.step es s ≡ Some next → S.related s t →
        Arrives T.step (S.related next) (matched S.step S.match_of es s) t }
{}
