//! What holds in each state that a program reaches, on any input and by any schedule.
//!
//! Each law is a function with an empty body, whose contract is the law. They hold of any program,
//! but for the one on create statements.
#![tactic(auto)]

ghost use Rattle.reached_states.specs.Lengths.{ReachedHaveLengths, ReachedHaveCells};
ghost use Rattle.reached_states.specs.Standing.{ReachedStand};
ghost use Rattle.reached_states.specs.Owners.{ReachedOwnersAreThreads, ReachedOwnersHaveBegun, ReachedRowsFit};
ghost use Rattle.reached_states.specs.Ending.{ReachedMainEnds};
ghost use Rattle.reached_states.specs.Counts.{HoldersAreCounted, CountsFit, TakenIsCounted};
ghost use Rattle.reached_states.specs.Holdings.{StepsChangeOne};
ghost use Rattle.reached_states.specs.Creating.{CreatesAreFresh};

/// The lists of a reached state have the lengths that the program gives: there is a cell for each
/// that is declared, an owner or none for each mutex, what each thread does, and for each monitor a
/// row with a number for each thread.
pub fn lists_keep_their_lengths()
    ensures lengths { ReachedHaveLengths }
    ensures cells { ReachedHaveCells }
{}

/// A running thread has a newest frame, one that waits or takes again stands at a wait, and all
/// frames below the newest one stand at calls. What a thread has still to take are the last takes
/// of its wait.
pub fn frames_stand_at_calls_and_waits()
    ensures { ReachedStand }
{}

/// Owners are threads of the program that have begun, and of no monitor more tokens are held than it has.
pub fn owners_have_begun()
    ensures owners { ReachedOwnersHaveBegun }
    ensures threads { ReachedOwnersAreThreads }
    ensures rows { ReachedRowsFit }
{}

/// Main has begun, and it has ended exactly where the program has.
pub fn main_ends_with_the_program()
    ensures { ReachedMainEnds }
{}

/// A thread is a holder of a resource where it holds more than 0 of its tokens. In a reached state
/// no more tokens are held than there are, and the resource is taken exactly where all are held.
pub fn holders_and_tokens_are_counted()
    ensures holders { HoldersAreCounted }
    ensures fit { CountsFit }
    ensures taken { TakenIsCounted }
{}

/// A step from a reached state changes at most what the thread that acts holds of one resource, by
/// one token.
pub fn a_step_changes_one_holding()
    ensures { StepsChangeOne }
{}

/// In a program that creates threads in main's own list alone, and calls main nowhere, each thread
/// is created once: who stands at a create statement begins a thread that hasn't begun.
pub fn threads_are_created_once()
    ensures { CreatesAreFresh }
{}
