//! What tokens begin outside functions, and which words definitions leave.

ghost use Rattle.std.specs.Prelude.{◌≡◌, List, ℕ};
ghost use Rattle.c_expressions.specs.Marked.{what_of};
ghost use Rattle.c_expressions.specs.Gives.{sight};
ghost use Rattle.c_programs.specs.Words as words;
ghost use Rattle.c_programs.specs.Gives as spec;

use c_expressions::token::{Marked, Setting, What};
use c_grammar::FixedWord;

/// What a token begins outside functions.
#[derive(Clone, Copy, Debug, PartialEq, Eq)]
pub enum Opening {
    /// `int`
    Int,
    /// `void`
    Void,
    /// `pthread_mutex_t`
    Mutex,
    /// `pthread_cond_t`
    Condition,
    /// `pthread_t`
    Thread,
    /// `static`
    Static,
    /// A definition.
    Definition,
    /// Nothing.
    Other,
}

/// Which words of the grammar have no definition so far.
#[derive(Clone, Copy, Debug)]
pub struct Free {
    /// `int`
    pub int: bool,
    /// `long`
    pub long: bool,
    /// `intptr_t`
    pub int_pointer: bool,
    /// `void`
    pub void: bool,
    /// `NULL`
    pub null: bool,
    /// `pthread_t`
    pub threads: bool,
    /// `pthread_mutex_t`
    pub mutexes: bool,
    /// `pthread_cond_t`
    pub conditions: bool,
    /// `PTHREAD_MUTEX_INITIALIZER`
    pub ready_mutexes: bool,
    /// `PTHREAD_COND_INITIALIZER`
    pub ready_conditions: bool,
}

/// What a token begins outside functions.
pub fn outer_opening(what: What) -> Opening
    ensures { (text : List ℕ) → result ≡ words.outer_opening (what_of text what) }
{
    match what {
        What::Fixed(FixedWord::Int) => Opening::Int,
        What::Fixed(FixedWord::Void) => Opening::Void,
        What::Fixed(FixedWord::Mutex) => Opening::Mutex,
        What::Fixed(FixedWord::Condition) => Opening::Condition,
        What::Fixed(FixedWord::Thread) => Opening::Thread,
        What::Fixed(FixedWord::Static) => Opening::Static,
        What::Definition(_) => Opening::Definition,
        _ => Opening::Other,
    }
}

/// Whether something begins so.
pub fn goes(declarations: bool, opening: Opening) -> bool
    ensures { result ≡ words.goes declarations opening }
{
    match opening {
        Opening::Static => declarations,
        Opening::Other => false,
        _ => true,
    }
}

/// Where no word has a definition.
pub fn all_free() -> Free
    ensures { result ≡ spec.all_free }
{
    Free {
        int: true,
        long: true,
        int_pointer: true,
        void: true,
        null: true,
        threads: true,
        mutexes: true,
        conditions: true,
        ready_mutexes: true,
        ready_conditions: true,
    }
}

fn without(free: Free, word: FixedWord) -> Free
    ensures { result ≡ spec.without free word }
{
    let mut free = free;
    match word {
        FixedWord::Int => free.int = false,
        FixedWord::Long => free.long = false,
        FixedWord::IntPointer => free.int_pointer = false,
        FixedWord::Void => free.void = false,
        FixedWord::Null => free.null = false,
        FixedWord::Thread => free.threads = false,
        FixedWord::Mutex => free.mutexes = false,
        FixedWord::Condition => free.conditions = false,
        FixedWord::MutexInitializer => free.ready_mutexes = false,
        FixedWord::ConditionInitializer => free.ready_conditions = false,
        _ => {}
    }
    free
}

/// Which words have no definition after a token.
pub fn after_what(free: Free, what: What) -> Free
    ensures { result ≡ spec.after_what free what }
{
    match what {
        What::Definition(Some(word)) => without(free, word),
        _ => free,
    }
}

/// What the tokens of a text stand in, where these words have no definition.
pub fn setting<'t>(text: &'t [u8], free: Free) -> Setting<'t>
    ensures { sight result ≡ spec.sight_of text.now free }
{
    Setting {
        text,
        casts: free.long || free.int_pointer,
        void: free.void,
        null: free.null,
        ready_mutexes: free.ready_mutexes,
        ready_conditions: free.ready_conditions,
        threads: free.threads,
        declarations: free.int || free.void || free.threads || free.mutexes || free.conditions,
    }
}
