//! The parser of the declaration of `gd_cond_wait`. Each function reads what the function of its name in
//! `specs/` does.

ghost use Rattle.std.specs.Prelude.{◌≡◌};
ghost use Rattle.parse_laws.specs.Gives.{Gives};
ghost use Rattle.c_expressions.specs.Gives.{sight};
ghost use Rattle.c_declarations.specs.Parsers as spec;

use crate::token::{Read, is_word, word};
use c_expressions::expression::sign;
use c_expressions::token::{Marked, Setting, is_sign};
use c_grammar::FixedWord;
use c_lexer::Sign;
use parse_laws::token::next;

fn type_comes(setting: Setting, tokens: &[Marked]) -> bool
    ensures { result ≡ spec.type_comes (sight setting.entry) tokens.now }
{
    match next(tokens) {
        Some((token, _)) => is_word(FixedWord::Condition, token.what),
        None => false,
    }
}

fn open_comes(setting: Setting, tokens: &[Marked]) -> bool
    ensures { result ≡ spec.open_comes (sight setting.entry) tokens.now }
{
    match next(tokens) {
        Some((token, rest)) => {
            is_sign(Sign::LeftParenthesis, token.what) && type_comes(setting, rest)
        }
        None => false,
    }
}

fn word_comes(setting: Setting, tokens: &[Marked]) -> bool
    ensures { result ≡ spec.word_comes (sight setting.entry) tokens.now }
{
    match next(tokens) {
        Some((token, rest)) => {
            is_word(FixedWord::ControlledWait, token.what) && open_comes(setting, rest)
        }
        None => false,
    }
}

fn wait_comes(setting: Setting, tokens: &[Marked]) -> bool
    ensures { result ≡ spec.wait_comes (sight setting.entry) tokens.now }
{
    match next(tokens) {
        Some((token, rest)) => is_word(FixedWord::Void, token.what) && word_comes(setting, rest),
        None => false,
    }
}

// `* c , pthread_mutex_t * m , ... ) ;`
#[tactic(auto, unfolding(crate::specs::Parsers::wait_end))]
fn wait_end<'a>(setting: Setting, tokens: &'a [Marked]) -> Read<'a, ()>
    ensures { Gives result (spec.wait_end (sight setting.entry) tokens.now) }
{
    let (_, rest) = sign(setting, Sign::Star, tokens)?;
    let (_, rest) = word(setting, FixedWord::ConditionParameter, rest)?;
    let (_, rest) = sign(setting, Sign::Comma, rest)?;
    let (_, rest) = word(setting, FixedWord::Mutex, rest)?;
    let (_, rest) = sign(setting, Sign::Star, rest)?;
    let (_, rest) = word(setting, FixedWord::MutexParameter, rest)?;
    let (_, rest) = sign(setting, Sign::Comma, rest)?;
    let (_, rest) = sign(setting, Sign::Ellipsis, rest)?;
    let (_, rest) = sign(setting, Sign::RightParenthesis, rest)?;
    let (_, rest) = sign(setting, Sign::Semicolon, rest)?;
    Ok(((), rest))
}

#[tactic(auto, unfolding(crate::specs::Parsers::wait_behind_void))]
fn wait_behind_void<'a>(setting: Setting, tokens: &'a [Marked]) -> Read<'a, ()>
    ensures { Gives result (spec.wait_behind_void (sight setting.entry) tokens.now) }
{
    let (_, rest) = word(setting, FixedWord::ControlledWait, tokens)?;
    let (_, rest) = sign(setting, Sign::LeftParenthesis, rest)?;
    let (_, rest) = word(setting, FixedWord::Condition, rest)?;
    wait_end(setting, rest)
}

#[tactic(auto, unfolding(crate::specs::Parsers::wait_prototype))]
fn wait_prototype<'a>(setting: Setting, tokens: &'a [Marked]) -> Read<'a, ()>
    ensures { Gives result (spec.wait_prototype (sight setting.entry) tokens.now) }
{
    let (_, rest) = word(setting, FixedWord::Void, tokens)?;
    wait_behind_void(setting, rest)
}

/// Reads the declaration of `gd_cond_wait`, if it comes: its first four tokens begin nothing else.
#[tactic(auto, unfolding(crate::specs::Parsers::wait_declared))]
pub fn wait_declared<'a>(setting: Setting, tokens: &'a [Marked]) -> Read<'a, ()>
    ensures { Gives result (spec.wait_declared (sight setting.entry) tokens.now) }
{
    if wait_comes(setting, tokens) {
        return wait_prototype(setting, tokens);
    }
    Ok(((), tokens))
}
