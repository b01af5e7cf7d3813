// The command `instrument`.
ghost use Rattle.std.specs.Prelude.{ℕ, ◌<◌, ◌≤◌, ◌^◌, List, length, MatchResult};
ghost use Rattle.c_tree.specs.Lined.{program_of};
ghost use Rattle.c_tree.specs.declared.program.Mode.TheVariants as mode;
ghost use Rattle.answers.specs.Refusing.{Ends, Declines};
ghost use Rattle.answers.specs.Programs.{SpellsFormed};
ghost use Rattle.contexts.specs.Outlines.{outlines};
ghost use Rattle.context_walk.specs.Found.{AreContexts, IsRefusal};
ghost use Rattle.flow_graph.specs.Flow.{HasFlow, IsFlowError};
ghost use Rattle.answers.specs.Instrument.{causes, IsOfOtherForm, IsSafe, IsAccepted};

use crate::answer::{Answer, complained};
use crate::lines;
use crate::program::{limited, read_program, refused};
use crate::reasons::reason_of_held;
use crate::refusal::Refusal;
use crate::status::Status;
use c_canonical::spelled_is_shaped;
use c_tree::{Mode, Program};
use context_walk::{ContextError, Contexts, resolve};
use first_form::{first_nested, has_first_text, one_lock_at_a_time};
use flow_graph::flow_of;
use outline_pieces::FlowError;
use spelled_numbers::spelled_is_small;
use std::alloc::Global;

/// A text in whose program a lock isn't constant in its context, or that has too many contexts.
fn unresolved(
    alloc: Global,
    name: &str,
    bytes: &[u8],
    program: &Program,
    error: ContextError,
) -> Refusal
    requires spells { SpellsFormed mode.Source bytes.now (program_of program.now) }
    requires refused { IsRefusal error (outlines (program_of program.now)) }
    ensures { Declines (causes name.now bytes.now) result }
{
    match error {
        ContextError::LockNotResolved { line } => {
            refused(alloc, name, line, "lock is not constant in its context")
        }
        ContextError::TooManyContexts => limited(alloc, name, "contexts", 256),
        ContextError::Memory => Refusal::Memory,
    }
}

/// The contexts of the well-formed program that a text spells, in each of which its locks are resolved.
fn resolve_locks(
    alloc: Global,
    name: &str,
    bytes: &[u8],
    program: &Program,
) -> Result<Contexts, Refusal>
    requires spells { SpellsFormed mode.Source bytes.now (program_of program.now) }
    requires few { length program.now.functions ≤ 65536 }
    ensures { MatchResult result (AreContexts (outlines (program_of program.now))) (Declines (causes name.now bytes.now)) }
{
    spelled_is_shaped();
    spelled_is_small();
    match resolve(alloc, program) {
        Ok(contexts) => Ok(contexts),
        Err(error) => Err(unresolved(alloc, name, bytes, program, error)),
    }
}

/// A text whose program has too many points, or where what its threads hold is refused.
fn no_flow(alloc: Global, name: &str, bytes: &[u8], program: &Program, error: FlowError) -> Refusal
    requires spells { SpellsFormed mode.Source bytes.now (program_of program.now) }
    requires refused { IsFlowError (program_of program.now) error }
    ensures { Declines (causes name.now bytes.now) result }
{
    match error {
        FlowError::TooManyPoints => limited(alloc, name, "points", 4096),
        FlowError::Held { kind, line } => refused(alloc, name, line, reason_of_held(kind)),
        FlowError::Memory => Refusal::Memory,
    }
}

/// Sees that the threads of the well-formed program that a text spells, with these contexts, have points at which
/// what they hold isn't refused.
fn find_flow(
    alloc: Global,
    name: &str,
    bytes: &[u8],
    program: &Program,
    contexts: &Contexts,
) -> Result<(), Refusal>
    requires spells { SpellsFormed mode.Source bytes.now (program_of program.now) }
    requires contexts { AreContexts (outlines (program_of program.now)) contexts.now }
    ensures { MatchResult result (λ unit. HasFlow (program_of program.now)) (Declines (causes name.now bytes.now)) }
{
    spelled_is_small();
    match flow_of(alloc, program, contexts) {
        Ok(_) => Ok(()),
        Err(error) => Err(no_flow(alloc, name, bytes, program, error)),
    }
}

/// A text whose form isn't built yet.
fn not_built(alloc: Global, name: &str, bytes: &[u8]) -> Refusal
    requires { IsOfOtherForm bytes.now }
    ensures { Declines (causes name.now bytes.now) result }
{
    match lines::not_built(alloc, name) {
        Ok(line) => Refusal::Told(complained(Status::Refused, line)),
        Err(_) => Refusal::Memory,
    }
}

/// What is answered of a text that spells this well-formed program, whose threads have points and edges.
fn answer_of(alloc: Global, name: &str, bytes: &[u8], program: &Program) -> Result<Answer, Refusal>
    requires spells { SpellsFormed mode.Source bytes.now (program_of program.now) }
    requires flow { HasFlow (program_of program.now) }
    ensures { Ends (causes name.now bytes.now) result }
{
    if !has_first_text(alloc, program)? {
        return Err(not_built(alloc, name, bytes));
    }
    match first_nested(alloc, program)? {
        Some(line) => Err(refused(alloc, name, line, "lock while a mutex is held")),
        None => Ok(Answer::new(Status::Done, Vec::from_slice(alloc, bytes)?)),
    }
}

/// What `instrument` answers of a file: its own bytes, where they spell a well-formed program of which each lock is
/// constant in its context, whose threads have no more than 4,096 points and hold there what isn't refused, that some
/// text of the first form spells, and in which no lock stands below another.
pub fn instrument(alloc: Global, name: &str, bytes: &[u8]) -> Result<Answer, Refusal>
    requires { length bytes.now < 2 ^ 31 }
    ensures { Ends (causes name.now bytes.now) result }
{
    let read = read_program(alloc, name, bytes, Mode::Source)?;
    let contexts = resolve_locks(alloc, name, bytes, &read.program)?;
    find_flow(alloc, name, bytes, &read.program, &contexts)?;
    answer_of(alloc, name, bytes, &read.program)
}

/// A file that is accepted spells a program of which no state that it reaches, on any input and by any schedule,
/// has a stuck set.
pub fn accepted_programs_are_safe()
    ensures { (bytes : List ℕ) → IsAccepted bytes → IsSafe bytes }
{
    one_lock_at_a_time();
}
