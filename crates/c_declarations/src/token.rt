//! Tokens that a declaration is made of.

ghost use Rattle.std.specs.Prelude.{◌≡◌, ◌<◌, List, ℕ, IfSome};
ghost use Rattle.c_grammar.specs.Items.{cell_name, function_name, spelling};
ghost use Rattle.c_lexer.specs.declared.token.Sign.TheVariants.{Comma};
ghost use Rattle.parse_laws.specs.Gives.{Gives};
ghost use Rattle.parse_laws.specs.Parser.{expect};
ghost use Rattle.c_expressions.specs.Gives.{sight};
ghost use Rattle.c_expressions.specs.Parsers as expressions;
ghost use Rattle.c_expressions.specs.Marked.{shown, what_of};
ghost use Rattle.c_declarations.specs.Words as words;
ghost use Rattle.c_declarations.specs.Parsers as spec;

use crate::tree::Sort;
use c_expressions::expression::{Passed, sign};
use c_expressions::token::{Marked, Setting, What, is_sign, name as name_of};
use c_grammar::FixedWord;
use c_lexer::Sign;
use c_tree::Name;
use parse_laws::fault::{Fault, Refusal};
use parse_laws::token::next;
use sqlite_items::Items;
use std::alloc::Global;

/// Something that was read, and the tokens after it.
pub type Read<'a, T> = Result<(T, &'a [Marked]), Refusal<'a, Marked>>;

#[tactic(auto, unfolding(crate::specs::Words::same_word))]
fn same_word(one: FixedWord, other: FixedWord) -> bool
    ensures { result ≡ words.same_word one other }
{
    one == other
}

/// Whether a token is a word of the grammar.
pub fn is_word(word: FixedWord, what: What) -> bool
    ensures { (text : List ℕ) → result ≡ words.is_word word (what_of text what) }
{
    match what {
        What::Fixed(found) => same_word(word, found),
        _ => false,
    }
}

/// The number that a token is.
pub fn number_of(what: What) -> Option<u32>
    ensures { (text : List ℕ) → result ≡ words.number_of (what_of text what) }
{
    match what {
        What::Number(value) => Some(value),
        _ => None,
    }
}

/// The number that a token is, where it is one of type `int`.
pub fn held(what: What) -> Option<u32>
    ensures held { (text : List ℕ) → result ≡ words.held words.int_holds (what_of text what) }
    ensures fits { IfSome result (λ value. value < 2147483648) }
{
    match what {
        What::Number(value) if value < 2147483648 => Some(value),
        _ => None,
    }
}

/// The name of a scalar or an array.
pub fn cell_name<'t>(text: &'t [u8], what: What) -> Option<&'t [u8]>
    ensures { shown result ≡ cell_name (what_of text.now what) }
{
    match what {
        What::Fixed(FixedWord::Capacities) => None,
        _ => name_of(text, what),
    }
}

/// The name of a function other than `main`.
pub fn function_name<'t>(text: &'t [u8], what: What) -> Option<&'t [u8]>
    ensures { shown result ≡ function_name (what_of text.now what) }
{
    match what {
        What::Fixed(FixedWord::Main) => None,
        _ => name_of(text, what),
    }
}

/// Reads a word that must come.
pub fn word<'a>(setting: Setting, expected: FixedWord, tokens: &'a [Marked]) -> Passed<'a>
    ensures { Gives result (expect (spec.is_fixed (sight setting.entry) expected) tokens.now) }
{
    match next(tokens) {
        Some((token, rest)) => {
            if is_word(expected, token.what) {
                Ok((token, rest))
            } else {
                Err(Refusal::At(Fault::Syntax, tokens))
            }
        }
        None => Err(Refusal::At(Fault::Syntax, tokens)),
    }
}

/// Whether a comma comes.
pub fn is_comma(setting: Setting, tokens: &[Marked]) -> bool
    ensures { result ≡ spec.is_at (expressions.is (sight setting.entry) Comma) tokens.now }
{
    match next(tokens) {
        Some((token, _)) => is_sign(Sign::Comma, token.what),
        None => false,
    }
}

/// Reads a name.
#[tactic(auto, unfolding(crate::specs::Parsers::name))]
pub fn name<'a>(alloc: Global, setting: Setting, tokens: &'a [Marked]) -> Read<'a, Name>
    ensures { Gives result (spec.name (sight setting.entry) tokens.now) }
{
    match next(tokens) {
        Some((token, rest)) => match name_of(setting.text, token.what) {
            Some(name) => Ok((Items::from_slice(alloc, name)?, rest)),
            None => Err(Refusal::At(Fault::Syntax, tokens)),
        },
        None => Err(Refusal::At(Fault::Syntax, tokens)),
    }
}

/// Reads a number.
#[tactic(auto, unfolding(crate::specs::Parsers::number))]
pub fn number<'a>(setting: Setting, tokens: &'a [Marked]) -> Read<'a, u32>
    ensures { Gives result (spec.number (sight setting.entry) tokens.now) }
{
    match next(tokens) {
        Some((token, rest)) => match number_of(token.what) {
            Some(value) => Ok((value, rest)),
            None => Err(Refusal::At(Fault::Syntax, tokens)),
        },
        None => Err(Refusal::At(Fault::Syntax, tokens)),
    }
}

/// Reads what stands behind `[` in a declaration: a number and `]`.
#[tactic(auto, unfolding(crate::specs::Parsers::length_behind))]
pub fn length_behind<'a>(setting: Setting, tokens: &'a [Marked]) -> Read<'a, u32>
    ensures { Gives result (spec.length_behind (sight setting.entry) tokens.now) }
{
    let (len, rest) = number(setting, tokens)?;
    let (_, rest) = sign(setting, Sign::RightBracket, rest)?;
    Ok((len, rest))
}
