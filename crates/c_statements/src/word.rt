//! What tokens stand for in statements.

ghost use Rattle.std.specs.Prelude.{◌≡◌, List, ℕ};
ghost use Rattle.c_expressions.specs.Marked.{what_of};
ghost use Rattle.c_expressions.specs.Gives.{sight};
ghost use Rattle.c_expressions.specs.Parsers.{seen};
ghost use Rattle.c_statements.specs.Words as spec;

use c_expressions::token::{Marked, Setting, What};
use c_grammar::FixedWord;
use c_lexer::Sign;
use c_simple::simple::begins_simple;

/// How a token begins a statement.
#[derive(Clone, Copy, Debug, PartialEq, Eq)]
pub enum Opening {
    /// As `;` alone.
    Empty,
    /// By `if`.
    If,
    /// By `while`.
    While,
    /// By `for`.
    For,
    /// As a simple statement, if at all.
    Simple,
}

/// How a token begins what an `if` tests.
#[derive(Clone, Copy, Debug, PartialEq, Eq)]
pub enum Question {
    /// By the name of the trylock.
    TryLock,
    /// By `!`, which may stand before it.
    Not,
    /// As an expression, if at all.
    Expression,
}

/// What stands behind a trylock.
#[derive(Clone, Copy, Debug, PartialEq, Eq)]
pub enum Comparison {
    /// `)`
    End,
    /// `==`
    Equal,
    /// `!=`
    NotEqual,
    /// Anything else.
    Other,
}

/// How a token begins the first part of a `for`.
#[derive(Clone, Copy, Debug, PartialEq, Eq)]
pub enum Start {
    /// As the `;` behind no part.
    Nothing,
    /// By `int`.
    Int,
    /// As a step, if at all.
    Step,
}

/// How a token begins a declaration of threads.
#[derive(Clone, Copy, Debug, PartialEq, Eq)]
pub enum Thread {
    /// By `static`.
    Static,
    /// By `pthread_t`, which is a name too.
    Type,
    /// It doesn't.
    Other,
}

/// How a token begins a statement.
pub fn statement_opening(what: What) -> Opening
    ensures { (text : List ℕ) → result ≡ spec.statement_opening (what_of text what) }
{
    match what {
        What::Sign(Sign::Semicolon) => Opening::Empty,
        What::Fixed(FixedWord::If) => Opening::If,
        What::Fixed(FixedWord::While) => Opening::While,
        What::Fixed(FixedWord::For) => Opening::For,
        _ => Opening::Simple,
    }
}

/// How a token begins what an `if` tests.
pub fn asks(what: What) -> Question
    ensures { (text : List ℕ) → result ≡ spec.asks (what_of text what) }
{
    match what {
        What::Fixed(FixedWord::TryLock) => Question::TryLock,
        What::Sign(Sign::Not) => Question::Not,
        _ => Question::Expression,
    }
}

/// What stands behind a trylock.
pub fn behind_try(what: What) -> Comparison
    ensures { (text : List ℕ) → result ≡ spec.behind_try (what_of text what) }
{
    match what {
        What::Sign(Sign::RightParenthesis) => Comparison::End,
        What::Sign(Sign::Equal) => Comparison::Equal,
        What::Sign(Sign::NotEqual) => Comparison::NotEqual,
        _ => Comparison::Other,
    }
}

/// Whether a token is the name of the trylock.
pub fn is_try(what: What) -> bool
    ensures { (text : List ℕ) → result ≡ spec.is_try (what_of text what) }
{
    matches!(what, What::Fixed(FixedWord::TryLock))
}

/// Whether a token is the number 0.
pub fn is_zero(what: What) -> bool
    ensures { (text : List ℕ) → result ≡ spec.is_zero (what_of text what) }
{
    match what {
        What::Number(value) => value == 0,
        _ => false,
    }
}

/// How a token begins the first part of a `for`.
pub fn first_start(what: What) -> Start
    ensures { (text : List ℕ) → result ≡ spec.first_start (what_of text what) }
{
    match what {
        What::Sign(Sign::Semicolon) => Start::Nothing,
        What::Fixed(FixedWord::Int) => Start::Int,
        _ => Start::Step,
    }
}

/// How a token begins a declaration of threads.
pub fn thread_opening(what: What) -> Thread
    ensures { (text : List ℕ) → result ≡ spec.thread_opening (what_of text what) }
{
    match what {
        What::Fixed(FixedWord::Static) => Thread::Static,
        What::Fixed(FixedWord::Thread) => Thread::Type,
        _ => Thread::Other,
    }
}

/// Whether a token is `else`.
pub fn is_else(what: What) -> bool
    ensures { (text : List ℕ) → result ≡ spec.is_else (what_of text what) }
{
    matches!(what, What::Fixed(FixedWord::Else))
}

/// Whether a token is `static`.
pub fn is_static(what: What) -> bool
    ensures { (text : List ℕ) → result ≡ spec.is_static (what_of text what) }
{
    matches!(what, What::Fixed(FixedWord::Static))
}

/// Whether a token is `pthread_t`.
pub fn is_thread_type(what: What) -> bool
    ensures { (text : List ℕ) → result ≡ spec.is_thread_type (what_of text what) }
{
    matches!(what, What::Fixed(FixedWord::Thread))
}

/// Whether a statement begins with this token, in some room.
pub fn begins(setting: Setting, token: Marked) -> bool
    ensures { result ≡ spec.begins (seen (sight setting.entry) token) }
{
    match statement_opening(token.what) {
        Opening::Simple => begins_simple(setting, token),
        _ => true,
    }
}
