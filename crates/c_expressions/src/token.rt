//! Tokens as the parser sees them, and what they may stand for.

ghost use Rattle.std.specs.Prelude.{◌≡◌, List, Option, ℕ};
ghost use Rattle.c_grammar.specs.Items.{is_keyword, name_of, callee};
ghost use Rattle.c_grammar.specs.Items as items;
ghost use Rattle.c_expressions.specs.Marked.{bytes_at, what_of, shown};
ghost use Rattle.c_expressions.specs.Words as spec;

use c_grammar::FixedWord;
use c_lexer::{Sign, Span};

/// What a token is, once the definitions before it are known.
#[derive(Clone, Copy, Debug)]
pub enum What {
    /// A name that is no word of the grammar, at its place in the text.
    Name(Span),
    /// A word that the grammar spells out.
    Fixed(FixedWord),
    /// A keyword of C that has no place in the grammar.
    Keyword,
    /// A number from 0 to 2147483647, or a name that is defined as one.
    Number(u32),
    /// A text: the place of the bytes between its quotes.
    Text(Span),
    /// A sign.
    Sign(Sign),
    /// A definition of a name, and which word of the grammar that name is, if any.
    Definition(Option<FixedWord>),
    /// A definition of a name that has one already.
    Repeated,
}

/// A token with its line, counted from 1.
#[derive(Clone, Copy, Debug)]
pub struct Marked {
    /// The line on which it begins.
    pub line: u32,
    /// What it is.
    pub what: What,
}

/// What the tokens stand in: their text, and which words have no definition there, so that they can still
/// come.
#[derive(Clone, Copy, Debug)]
pub struct Setting<'t> {
    /// The text.
    pub text: &'t [u8],
    /// `long` or `intptr_t`, so that there are casts.
    pub casts: bool,
    /// `void`.
    pub void: bool,
    /// `NULL`.
    pub null: bool,
    /// `PTHREAD_MUTEX_INITIALIZER`.
    pub ready_mutexes: bool,
    /// `PTHREAD_COND_INITIALIZER`.
    pub ready_conditions: bool,
    /// `pthread_t`.
    pub threads: bool,
    /// One of the words that may follow `static` outside functions: `int`, `void`, `pthread_t`, `pthread_mutex_t`
    /// or `pthread_cond_t`.
    pub declarations: bool,
}

/// The bytes at a place of a text, or none where the text has no such place.
pub fn piece(text: &[u8], place: Span) -> &[u8]
    ensures { result.now ≡ bytes_at text.now place }
{
    if place.start <= place.end && place.end <= text.len() {
        &text[place.start..place.end]
    } else {
        &[]
    }
}

/// How a word is spelled.
pub fn spelling(word: FixedWord) -> &'static [u8]
    ensures { result.now ≡ items.spelling word }
{
    match word {
        FixedWord::Int => b"int",
        FixedWord::Void => b"void",
        FixedWord::Static => b"static",
        FixedWord::Long => b"long",
        FixedWord::If => b"if",
        FixedWord::Else => b"else",
        FixedWord::While => b"while",
        FixedWord::For => b"for",
        FixedWord::Return => b"return",
        FixedWord::Main => b"main",
        FixedWord::Parameter => b"k",
        FixedWord::ConditionParameter => b"c",
        FixedWord::MutexParameter => b"m",
        FixedWord::Null => b"NULL",
        FixedWord::IntPointer => b"intptr_t",
        FixedWord::Print => b"printf",
        FixedWord::Scan => b"scanf",
        FixedWord::Thread => b"pthread_t",
        FixedWord::Mutex => b"pthread_mutex_t",
        FixedWord::Condition => b"pthread_cond_t",
        FixedWord::MutexInitializer => b"PTHREAD_MUTEX_INITIALIZER",
        FixedWord::ConditionInitializer => b"PTHREAD_COND_INITIALIZER",
        FixedWord::Create => b"pthread_create",
        FixedWord::Join => b"pthread_join",
        FixedWord::InitMutex => b"pthread_mutex_init",
        FixedWord::InitCondition => b"pthread_cond_init",
        FixedWord::Lock => b"pthread_mutex_lock",
        FixedWord::TryLock => b"pthread_mutex_trylock",
        FixedWord::Unlock => b"pthread_mutex_unlock",
        FixedWord::Wait => b"pthread_cond_wait",
        FixedWord::Signal => b"pthread_cond_signal",
        FixedWord::Broadcast => b"pthread_cond_broadcast",
        FixedWord::Capacities => b"gd_cap",
        FixedWord::Take => b"gd_take",
        FixedWord::Give => b"gd_give",
        FixedWord::ControlledWait => b"gd_cond_wait",
    }
}

/// Whether a word is a keyword of C.
pub fn is_keyword(word: FixedWord) -> bool
    ensures { result ≡ is_keyword word }
{
    matches!(
        word,
        FixedWord::Int
            | FixedWord::Void
            | FixedWord::Static
            | FixedWord::Long
            | FixedWord::If
            | FixedWord::Else
            | FixedWord::While
            | FixedWord::For
            | FixedWord::Return
    )
}

/// The name that a token is, where it is no keyword.
pub fn name<'t>(text: &'t [u8], what: What) -> Option<&'t [u8]>
    ensures { shown result ≡ name_of (what_of text.now what) }
{
    match what {
        What::Name(place) => Some(piece(text, place)),
        What::Fixed(word) => {
            if is_keyword(word) {
                None
            } else {
                Some(spelling(word))
            }
        }
        _ => None,
    }
}

/// The name that may be called.
pub fn called<'t>(text: &'t [u8], what: What) -> Option<&'t [u8]>
    ensures { shown result ≡ callee (what_of text.now what) }
{
    match what {
        What::Name(place) => Some(piece(text, place)),
        What::Fixed(FixedWord::Main) => Some(b"main"),
        What::Fixed(FixedWord::Parameter) => Some(b"k"),
        What::Fixed(FixedWord::ConditionParameter) => Some(b"c"),
        What::Fixed(FixedWord::MutexParameter) => Some(b"m"),
        _ => None,
    }
}

#[tactic(auto, unfolding(crate::specs::Words::same_sign))]
fn same_sign(one: Sign, other: Sign) -> bool
    ensures { result ≡ spec.same_sign one other }
{
    one == other
}

/// Whether a token is a sign.
pub fn is_sign(sign: Sign, what: What) -> bool
    ensures { (text : List ℕ) → result ≡ spec.is_sign sign (what_of text what) }
{
    match what {
        What::Sign(found) => same_sign(sign, found),
        _ => false,
    }
}

/// How a token begins an operand.
#[derive(Clone, Copy, Debug)]
pub enum Head<'t> {
    /// With a number.
    Value(u32),
    /// With a name.
    Word(&'t [u8]),
    /// With `(`.
    Open,
    /// With `!`.
    Not,
    /// With `-`.
    Minus,
    /// It doesn't.
    Other,
}

/// How a token begins an operand.
pub fn beginning<'t>(text: &'t [u8], what: What) -> Head<'t>
    ensures { spec.head_of result ≡ spec.head (what_of text.now what) }
{
    match what {
        What::Number(value) => Head::Value(value),
        What::Sign(Sign::LeftParenthesis) => Head::Open,
        What::Sign(Sign::Not) => Head::Not,
        What::Sign(Sign::Minus) => Head::Minus,
        _ => match name(text, what) {
            Some(name) => Head::Word(name),
            None => Head::Other,
        },
    }
}

/// What a token is behind `(`, as far as casts go.
#[derive(Clone, Copy, Debug, PartialEq, Eq)]
pub enum Inner {
    /// `int`
    Int,
    /// `long`
    Long,
    /// `intptr_t`, which is a word of a cast or a name.
    Pointer,
    /// Anything else.
    Other,
}

/// What a token is behind `(`.
pub fn behind_open(what: What) -> Inner
    ensures { (text : List ℕ) → result ≡ spec.inner (what_of text what) }
{
    match what {
        What::Fixed(FixedWord::Int) => Inner::Int,
        What::Fixed(FixedWord::Long) => Inner::Long,
        What::Fixed(FixedWord::IntPointer) => Inner::Pointer,
        _ => Inner::Other,
    }
}
