//! Names and numbers.

ghost use Rattle.std.specs.Prelude.{◌≡◌, ◌<◌, ◌≤◌, ℕ, Bool, List, true, false, length, slice_index, MatchOption};
ghost use Rattle.std.specs.List.{list_all, prefix_len};
ghost use Rattle.c_lexer.specs.Classes as classes;
ghost use Rattle.c_lexer.specs.Words as spec;
ghost use Rattle.c_lexer.specs.Directives as directives;
ghost use Rattle.c_lexer.specs.Cuts.{Cuts, shown};

use crate::classes::{is_digit, is_letter, is_word};
use crate::piece::{Cut, Fault, Lexeme};
use crate::token::Token;

/// The largest number of characters of a name.
const LONGEST_NAME: usize = 63;

/// The largest number.
const LARGEST: u64 = 2147483647;

/// How many bytes of a word a text begins with.
pub fn word_len(text: &[u8]) -> usize
    ensures within { result ≤ length text.now }
    ensures value { result ≡ prefix_len classes.is_word text.now }
{
    let mut len = 0;
    while len < text.len() && is_word(text[len]) {
        len += 1;
    }
    len
}

/// What a word of this length is that begins with a letter or `_`.
#[tactic(auto, unfolding(crate::specs::Words::name_of))]
fn name_of(len: usize) -> Lexeme
    ensures { (place : ℕ) (all : List ℕ) → result ≡ shown place all (spec.name_of len) }
{
    if len <= LONGEST_NAME {
        Lexeme::Token(Token::Name)
    } else {
        Lexeme::Refused(Fault::LongName)
    }
}

/// The name that a text begins with.
pub fn name(text: &[u8]) -> Cut
    requires some { 0 < length text.now }
    requires letter { classes.is_letter (slice_index text.now 0) ≡ true }
    ensures { (first : Bool) (place : ℕ) → Cuts first place text.now result }
{
    let len = word_len(text);
    Cut {
        lexeme: name_of(len),
        len,
    }
}

/// The length of the name that a text begins with, where its first word is one.
pub fn name_len(text: &[u8]) -> Option<usize>
    ensures { MatchOption result (directives.is_name (directives.word text.now) ≡ false)
        (λ n. (directives.is_name (directives.word text.now) ≡ true) × (n ≡ prefix_len classes.is_word text.now) × (n ≤ length text.now)) }
{
    let len = word_len(text);
    if 0 < len && len <= LONGEST_NAME && is_letter(text[0]) {
        Some(len)
    } else {
        None
    }
}

/// The number that digits spell, where it is small enough.
#[tactic(auto, using(crate::proofs::WordPieces::digits))]
fn value(digits: &[u8]) -> Option<u32>
    requires { list_all classes.is_digit digits.now ≡ true }
    ensures { MatchOption result (spec.largest < spec.decimal digits.now)
        (λ v. (v ≡ spec.decimal digits.now) × (v ≤ spec.largest)) }
{
    let mut value = 0u32;
    for digit in digits {
        let more = 10 * u64::from(value) + u64::from(*digit - b'0');
        if more > LARGEST {
            return None;
        }
        value = more as u32;
    }
    Some(value)
}

fn all_digits(word: &[u8]) -> bool
    ensures { result ≡ list_all classes.is_digit word.now }
{
    word.iter().all(|b| is_digit(*b))
}

/// Whether a word is `0`, or digits that don't begin with `0`.
fn is_plain(word: &[u8]) -> bool
    ensures { result ≡ spec.is_plain word.now }
{
    !word.is_empty() && all_digits(word) && (word[0] != b'0' || word.len() <= 1)
}

/// What a word is that begins with a digit.
#[tactic(auto, unfolding(crate::specs::Words::number_of))]
fn number_of(word: &[u8]) -> Lexeme
    ensures { (place : ℕ) (all : List ℕ) → result ≡ shown place all (spec.number_of word.now) }
{
    if !is_plain(word) {
        return Lexeme::Refused(Fault::BadNumber);
    }
    match value(word) {
        Some(value) => Lexeme::Token(Token::Number(value)),
        None => Lexeme::Refused(Fault::NumberTooLarge),
    }
}

/// The number that a text begins with.
pub fn number(text: &[u8]) -> Cut
    requires some { 0 < length text.now }
    requires letter { classes.is_letter (slice_index text.now 0) ≡ false }
    requires digit { classes.is_digit (slice_index text.now 0) ≡ true }
    ensures { (first : Bool) (place : ℕ) → Cuts first place text.now result }
{
    let len = word_len(text);
    Cut {
        lexeme: number_of(&text[..len]),
        len,
    }
}

/// The value of a word that is a number.
pub fn number_value(word: &[u8]) -> Option<u32>
    ensures { MatchOption result (directives.is_number word.now ≡ false)
        (λ v. (directives.is_number word.now ≡ true) × (v ≡ spec.decimal word.now)) }
{
    if !is_plain(word) {
        return None;
    }
    value(word)
}
