//! What tokens stand for in statements that hold no others.

ghost use Rattle.std.specs.Prelude.{◌≡◌, List, ℕ, is_some};
ghost use Rattle.c_expressions.specs.Marked.{shown, what_of};
ghost use Rattle.c_expressions.specs.Parsers.{operator_of};
ghost use Rattle.c_simple.specs.Words as spec;

use c_expressions::token::{What, piece};
use c_grammar::FixedWord;
use c_lexer::Sign;
use c_tree::Op;

/// How the token behind a place changes it.
#[derive(Clone, Copy, Debug)]
pub enum Way {
    /// To a value.
    Set,
    /// By an operator and a value.
    Change(Op),
    /// By one.
    Count(Op),
    /// It doesn't.
    Other,
}

/// What is called of the library.
#[derive(Clone, Copy, Debug, PartialEq, Eq)]
pub enum Routine {
    /// `printf`
    Print,
    /// `scanf`
    Scan,
    /// `pthread_create`
    Create,
    /// `pthread_join`
    Join,
    /// `pthread_mutex_init`
    InitMutex,
    /// `pthread_cond_init`
    InitCondition,
    /// `pthread_mutex_lock`
    Lock,
    /// `pthread_mutex_unlock`
    Unlock,
    /// `pthread_cond_wait`
    Wait,
    /// `pthread_cond_signal`
    Signal,
    /// `pthread_cond_broadcast`
    Broadcast,
    /// `gd_take`
    Take,
    /// `gd_give`
    Give,
    /// `gd_cond_wait`
    ControlledWait,
}

/// How the token behind a place changes it.
pub fn way_of(what: What) -> Way
    ensures { (text : List ℕ) → result ≡ spec.way_of (what_of text what) }
{
    let What::Sign(sign) = what else {
        return Way::Other;
    };
    match sign {
        Sign::Assign => Way::Set,
        Sign::AddAssign => Way::Change(Op::Add),
        Sign::SubtractAssign => Way::Change(Op::Sub),
        Sign::MultiplyAssign => Way::Change(Op::Mul),
        Sign::DivideAssign => Way::Change(Op::Div),
        Sign::RemainderAssign => Way::Change(Op::Rem),
        Sign::Increment => Way::Count(Op::Add),
        Sign::Decrement => Way::Count(Op::Sub),
        _ => Way::Other,
    }
}

/// The operator of `++` or `--`.
pub fn counter(what: What) -> Option<Op>
    ensures { (text : List ℕ) → result ≡ spec.counter (what_of text what) }
{
    match what {
        What::Sign(Sign::Increment) => Some(Op::Add),
        What::Sign(Sign::Decrement) => Some(Op::Sub),
        _ => None,
    }
}

// What a word calls of the library; the flag says that `NULL` can come.
fn called_word(null: bool, word: FixedWord) -> Option<Routine>
    ensures { result ≡ spec.routine_by null word }
{
    match word {
        FixedWord::Print => Some(Routine::Print),
        FixedWord::Scan => Some(Routine::Scan),
        FixedWord::Create if null => Some(Routine::Create),
        FixedWord::Join if null => Some(Routine::Join),
        FixedWord::InitMutex if null => Some(Routine::InitMutex),
        FixedWord::InitCondition if null => Some(Routine::InitCondition),
        FixedWord::Lock => Some(Routine::Lock),
        FixedWord::Unlock => Some(Routine::Unlock),
        FixedWord::Wait => Some(Routine::Wait),
        FixedWord::Signal => Some(Routine::Signal),
        FixedWord::Broadcast => Some(Routine::Broadcast),
        FixedWord::Take => Some(Routine::Take),
        FixedWord::Give => Some(Routine::Give),
        FixedWord::ControlledWait => Some(Routine::ControlledWait),
        _ => None,
    }
}

/// What a token calls of the library; the flag says that `NULL` can come.
pub fn routine_of(null: bool, what: What) -> Option<Routine>
    ensures { (text : List ℕ) → result ≡ spec.routine_of null (what_of text what) }
{
    match what {
        What::Fixed(word) => called_word(null, word),
        _ => None,
    }
}

/// Whether a token is `NULL`.
pub fn is_null(what: What) -> bool
    ensures { (text : List ℕ) → result ≡ spec.is_null (what_of text what) }
{
    matches!(what, What::Fixed(FixedWord::Null))
}

/// Whether a token is what the function of a thread gives back, `NULL` or the number 0.
pub fn is_no_value(what: What) -> bool
    ensures { (text : List ℕ) → result ≡ spec.is_no_value (what_of text what) }
{
    match what {
        What::Fixed(FixedWord::Null) => true,
        What::Number(value) => value == 0,
        _ => false,
    }
}

/// Whether a token is the number 1.
pub fn is_one(what: What) -> bool
    ensures { (text : List ℕ) → result ≡ spec.is_one (what_of text what) }
{
    match what {
        What::Number(value) => value == 1,
        _ => false,
    }
}

/// The number that a token is.
pub fn number(what: What) -> Option<u32>
    ensures { (text : List ℕ) → result ≡ spec.number_of (what_of text what) }
{
    match what {
        What::Number(value) => Some(value),
        _ => None,
    }
}

/// The bytes between the quotes of a text.
pub fn format<'t>(text: &'t [u8], what: What) -> Option<&'t [u8]>
    ensures { shown result ≡ spec.text_of (what_of text.now what) }
{
    match what {
        What::Text(place) => Some(piece(text, place)),
        _ => None,
    }
}

/// Whether a token is the text `"%d"`.
pub fn is_number_format(text: &[u8], what: What) -> bool
    ensures { result ≡ spec.is_number_format (what_of text.now what) }
{
    match what {
        What::Text(place) => piece(text, place) == b"%d".as_slice(),
        _ => false,
    }
}

/// Whether a token is an operator between two operands.
pub fn is_operator(what: What) -> bool
    ensures { (text : List ℕ) → result ≡ is_some (operator_of (what_of text what)) }
{
    let What::Sign(sign) = what else {
        return false;
    };
    match sign {
        Sign::Or
        | Sign::And
        | Sign::Equal
        | Sign::NotEqual
        | Sign::Less
        | Sign::LessEqual
        | Sign::Greater
        | Sign::GreaterEqual
        | Sign::Plus
        | Sign::Minus
        | Sign::Star
        | Sign::Slash
        | Sign::Percent => true,
        _ => false,
    }
}
