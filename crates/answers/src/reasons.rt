// Why a text is refused, in words.
ghost use Rattle.std.specs.Prelude.{◌≡◌};
ghost use Rattle.answers.specs.Reasons.{line_of, reason_of, reason_of_rule, reason_of_held, name_of_count};

use c_check::{Count, Rule};
use c_lexer::LexError;
use held_counts::HeldKind;

/// The line of a refusal.
pub fn line_of(error: LexError) -> u32
    ensures { result ≡ line_of error }
{
    match error {
        LexError::BadByte { line }
        | LexError::OpenComment { line }
        | LexError::BadNumber { line }
        | LexError::NumberTooLarge { line }
        | LexError::LongName { line }
        | LexError::BadText { line }
        | LexError::BadLine { line } => line,
    }
}

/// Its reason.
pub fn reason_of(error: LexError) -> &'static str
    ensures { result.now ≡ reason_of error }
{
    match error {
        LexError::BadByte { .. } => "byte outside the profile",
        LexError::OpenComment { .. } => "comment is not closed",
        LexError::BadNumber { .. } => "number is not a plain decimal",
        LexError::NumberTooLarge { .. } => "number is larger than 2147483647",
        LexError::LongName { .. } => "name is longer than 63 characters",
        LexError::BadText { .. } => "text outside the profile",
        LexError::BadLine { .. } => "preprocessor line outside the profile",
    }
}

/// The reason of a rule that is broken.
pub fn reason_of_rule(rule: Rule) -> &'static str
    ensures { result.now ≡ reason_of_rule rule }
{
    match rule {
        Rule::Reserved => "reserved name",
        Rule::LongName => "function name is longer than 56 characters",
        Rule::Twice => "name declared twice",
        Rule::Unknown => "unknown name",
        Rule::WrongKind => "name of another kind",
        Rule::WrongCount => "wrong count",
        Rule::Recursion => "recursion",
        Rule::NoMain => "no main",
        Rule::CreateNotFixed => "thread not created at a fixed place",
        Rule::JoinNotFixed => "thread not joined at a fixed place",
        Rule::ArgNotConstant => "thread argument is not constant",
        Rule::InitLate => "object initialised too late",
        Rule::IndexRange => "index out of range",
    }
}

/// The reason of a refusal of what is held.
pub fn reason_of_held(kind: HeldKind) -> &'static str
    ensures { result.now ≡ reason_of_held kind }
{
    match kind {
        HeldKind::Relock => "mutex is locked again by its holder",
        HeldKind::NotHeld => "released but not held",
        HeldKind::HeldDiffers => "held locks differ where paths meet",
        HeldKind::HeldAtEnd => "held at the end of a thread",
        HeldKind::HeldAtJoin => "held at a join",
        HeldKind::WaitNotHeld => "wait without its mutex",
    }
}

/// The name of what a program may have only so many of.
pub fn name_of_count(what: Count) -> &'static str
    ensures { result.now ≡ name_of_count what }
{
    match what {
        Count::Threads => "threads",
        Count::Mutexes => "mutexes",
        Count::Monitors => "monitors",
        Count::Cells => "cells",
    }
}
